// The step program on slices: its output as a definition, and the code that makes it.

#![tactic(auto)]

pub mod answer;
mod by_originals;
mod line;
mod listed;
mod originals;
mod rest;
mod unpinned;
pub mod word;

ghost use Rattle.steplist.specs.Claims.{OriginalsPass};
ghost use Rattle.steplist.specs.Example.{Examples};

// The theorem and the examples, as the contract of a function that does nothing: the check demands their proofs.
pub fn claims()
    ensures originals_pass { OriginalsPass }
    ensures examples { Examples }
{}
