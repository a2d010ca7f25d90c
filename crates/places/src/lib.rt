// The places of a move: the step at a place, and whether store and marks are as a place has them.

#![tactic(auto)]

pub mod operation;
pub mod place;
pub mod place_marks;
