// The step program's text: its input is read and its lines are printed, on slices. The definitions are in specs/.
// A function that prints requires the room that its text takes; those that read require nothing of the text.

#![tactic(auto)]

pub mod digits;
pub mod fit;
pub mod input;
pub mod lines;
pub mod number;

ghost use Rattle.listing.specs.Examples.{PrintedIsRead, Examples};

// The theorems about the definitions, as the contract of a function that does nothing: the check demands their proofs.
pub fn claims()
    ensures printed_is_read { PrintedIsRead }
    ensures examples { Examples }
{}
