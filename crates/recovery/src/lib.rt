// Recovery after a cut: what the marks tell, and the call mend.

#![tactic(auto)]

pub mod marks;
pub mod mend;
