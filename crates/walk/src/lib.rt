// The cycles of a set, and the walks along them that rebuild an original from the blocks that are full.
// A function here may have a `requires`: only the crates above call it, and their proofs show it.

#![tactic(auto)]

pub mod apart;
pub mod moment;
pub mod rows;
pub mod set;
pub mod terms;
pub mod walk;
pub mod zero;
