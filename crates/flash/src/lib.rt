// The chip as the mover sees it: sizes, pages, blocks. The definitions are in specs/.
// A function here may have a `requires`: only the crates above call it, and their proofs show it.

#![tactic(auto)]

pub mod block;
pub mod bytes;
pub mod quotient;
pub mod refusal;
pub mod sizes;
pub mod slots;
pub mod totals;
pub mod wear;

// A byte or a mark that is not written.
pub const ERASED: u8 = 255;

// The letters are the marks below this.
pub const LETTERS: u8 = 3;

ghost use Rattle.flash.specs.Claims.{WholeByLetter, RangeIsBounds, BytesOfPages};

// Nothing to run: the contract demands the proof.
pub fn claims()
    ensures whole_by_letter { WholeByLetter }
    ensures range_is_bounds { RangeIsBounds }
    ensures bytes_of_pages { BytesOfPages }
{}
