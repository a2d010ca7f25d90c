// Mend: the recovery after a cut.

ghost use Rattle.std.specs.Prelude.{◌≡◌, ◌≤◌};
ghost use Rattle.method.specs.Answers.{mend_answer};
ghost use Rattle.recovery.specs.MarksRead.{place_in_turn, recovered_as, answered};

use crate::marks::{MarksRead, read_marks};
use flash::block::erase_block;
use flash::refusal::Refusal;
use flash::sizes::Sizes;
use flash::wear::Wear;

// The place in the move, and the erases, 0 or 1: a count, as C is told it.
#[derive(Clone, Copy)]
pub struct Mended {
    pub place: u32,
    pub erases: u32,
}

// What came of it, and the counters with that, after a refusal too.
#[derive(Clone, Copy)]
pub struct MendResult {
    pub outcome: Result<Mended, Refusal>,
    pub wear: Wear,
}

// The place in the turn that fills this block, where so many of its pages are written.
fn place_in_turn(sizes: Sizes, backward: bool, block: usize, written: usize) -> u32
    requires { (sizes.n ≤ 64) × (sizes.m ≤ 64) × (block ≤ sizes.n) × (written ≤ sizes.m) }
    ensures { result ≡ place_in_turn sizes backward block written }
{
    let n = sizes.n;
    let m = sizes.m;
    let turn = if backward { 2 * n - block } else { block };
    (turn * (m + 1) + written) as u32
}

// Reads the marks and erases the unfinished block, if there is one. The refusals are looked for in the table's order, so that
// no length is computed from sizes out of range.
fn recover(
    sizes: Sizes,
    store: &mut [u8],
    marks: &mut [u8],
    wear: &mut Wear,
) -> Result<Mended, Refusal>
    ensures { recovered_as result store.exit.now marks.new wear.new
        ≡ mend_answer sizes (record { store = store.entry.now; marks = marks.old }) wear.old }
{
    if !sizes.in_range() {
        return Err(Refusal::BadSizes);
    }
    if (store.len() != sizes.store_length()) | (marks.len() != sizes.slot_count()) {
        return Err(Refusal::BadLength);
    }
    match read_marks(sizes, marks) {
        MarksRead::NoMoment => Err(Refusal::BadMarks),
        MarksRead::Full { backward, change } => {
            // all pages of this block are written, and the erase of its turn is due
            let filled = if backward { change } else { change - 1 };
            let place = place_in_turn(sizes, backward, filled, sizes.m);
            Ok(Mended { place, erases: 0 })
        }
        MarksRead::Torn { backward, block } => {
            erase_block(store, marks, sizes.m, sizes.p, block);
            let place = place_in_turn(sizes, backward, block, 0);
            wear.rise(block);
            Ok(Mended { place, erases: 1 })
        }
    }
}

// The counters go in by value and come back with every answer.
pub fn mend(sizes: Sizes, store: &mut [u8], marks: &mut [u8], mut wear: Wear) -> MendResult
    ensures { answered result store.exit.now marks.new
        ≡ mend_answer sizes (record { store = store.entry.now; marks = marks.old }) wear }
{
    let outcome = recover(sizes, store, marks, &mut wear);
    MendResult { outcome, wear }
}
