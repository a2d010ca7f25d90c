// The move: definitions of its rules (docs/RULES.md) in specs/, theorems about them in proofs/.

#![tactic(auto)]

ghost use Rattle.method.specs.Claims.{Claims};

pub mod accepted;
pub mod tally;

// Nothing to run: the contract demands the proofs of the theorems, so that none can vanish unnoticed.
pub fn claims()
    ensures { Claims }
{}
