// What the marks tell, for mend, the recovery after a cut, and for read.

ghost use Rattle.std.specs.Prelude.{◌≡◌, true, ◌⊎◌, ℕ, ◌+◌, ◌-◌, ◌*◌, ◌≤◌, ◌<◌, length};
ghost use Rattle.flash.specs.Lists.{all, range};
ghost use Rattle.flash.specs.Geometry.{slot_count};
ghost use Rattle.flash.specs.Chip.{is_full};
ghost use Rattle.method.specs.Mend.{reading};
ghost use Rattle.method.specs.Answers.{marks_answer};
ghost use Rattle.recovery.specs.MarksRead.{answer_of};
ghost use Rattle.recovery.specs.inner.Gathered.{moment_of, Shown};

use flash::LETTERS;
use flash::block::is_full;
use flash::bytes::is_filled;
use flash::sizes::Sizes;

// What the marks tell: the pass, and where in it. `answer_of` in specs/ lists the number and the values of each case.
#[derive(Clone, Copy)]
pub enum MarksRead {
    // They fit no moment of the move.
    NoMoment,
    // No block is unfinished. Blocks below `change` are full of s + 1, the others of s, or of s + 2 in the backward pass.
    Full { backward: bool, change: usize },
    // This block is unfinished. Those below it are full of s + 1, those above it of s, or of s + 2 in the backward pass.
    Torn { backward: bool, block: usize },
}

// What the search has gathered tells: rules 5.3 to 5.6.
fn moment(n: usize, backward: bool, unfinished: usize, block: usize, change: usize) -> MarksRead
    requires { (n ≤ 64) × (block ≤ n) }
    ensures { result ≡ moment_of n backward unfinished block change }
{
    if unfinished == 0 {
        if (change == 0) | (n < change) {
            return MarksRead::NoMoment;
        }
        return MarksRead::Full { backward, change };
    }
    if (unfinished == 2) | (block + 1 != change) {
        return MarksRead::NoMoment;
    }
    MarksRead::Torn { backward, block }
}

// Whether the blocks from `from` to before `to` are full of the letter. They are looked at in one stretch.
fn are_full(marks: &[u8], m: usize, from: usize, to: usize, letter: u8) -> bool
    requires { (0 < m) × (from ≤ to) × (to * m ≤ length marks.now) }
    ensures { result ≡ all (λ block. is_full m marks.now block letter) (range from (to - from)) }
{
    is_filled(&marks[from * m..to * m], letter)
}

// A guess at how many blocks begin with the letter, by halves: it is right where all that do come before all that do not.
fn begun_with(marks: &[u8], m: usize, blocks: usize, letter: u8) -> usize
    requires { (0 < m) × (blocks ≤ 65) × (blocks * m ≤ length marks.now) }
    ensures { result ≤ blocks }
{
    let mut low = 0;
    let mut high = blocks;
    // the range is halved by hand: the blocks lie in the marks as m bytes each, and `partition_point` goes over single items
    while low < high {
        let middle = (low + high) / 2;
        if marks[middle * m] == letter {
            low = middle + 1;
        } else {
            high = middle;
        }
    }
    low
}

// How many blocks are passed over, since they are full of the letter: all but one of those that begin with it, or none.
fn passed_over(marks: &[u8], m: usize, blocks: usize, letter: u8) -> usize
    requires { (0 < m) × (blocks ≤ 65) × (blocks * m ≤ length marks.now) }
    ensures { (result ≤ blocks) × ((block : ℕ) → block < result → is_full m marks.now block letter ≡ true) }
{
    let begun = begun_with(marks, m, blocks, letter);
    if begun == 0 {
        return 0;
    }
    if are_full(marks, m, 0, begun - 1, letter) {
        return begun - 1;
    }
    0
}

// How many pages of a block need not be looked at one by one: all, if it is full of the letter, or none.
fn known_pages(marks: &[u8], m: usize, block: usize, letter: u8) -> usize
    requires { block * m + m ≤ length marks.now }
    ensures { ((letter < 3) × (is_full m marks.now block letter ≡ true) × (result ≡ m)) ⊎ (result ≡ 0) }
{
    if letter < LETTERS && is_full(marks, m, block, letter) {
        m
    } else {
        0
    }
}

// Reads the marks; one that is no letter counts as 255. Blocks that are full bear s + 1 below block `change`, and one other letter,
// `upper`, from there on. The search ends at the second unfinished block, at anything else that fits no moment of the move, and where
// all the rest is full of `upper`.
pub fn read_marks(sizes: Sizes, marks: &[u8]) -> MarksRead
    requires n_bound { (sizes.n ≤ 64) × (0 < sizes.m) × (sizes.m ≤ 64) × (sizes.s < 3) }
    requires marks_len { length marks.now ≡ slot_count sizes }
    ensures result_value { answer_of sizes result ≡ marks_answer (reading sizes marks.now) }
    ensures shown { Shown sizes marks.now result }
{
    let n = sizes.n;
    let m = sizes.m;
    let blocks = n + 1;
    let mut unfinished: usize = 0;
    let mut torn = 0;
    let mut upper = sizes.letter_after(1);
    let mut change = blocks;
    'search: for block in passed_over(marks, m, blocks, upper)..blocks {
        let first = block * m;
        let letter = marks[first];
        let mut whole = true;
        for page in known_pages(marks, m, block, letter)..m {
            let mark = marks[first + page];
            if whole & ((mark != letter) | (LETTERS <= mark)) {
                whole = false;
                torn = block;
                unfinished += 1;
                if unfinished == 2 {
                    break 'search;
                }
            }
        }
        if whole & (letter != upper) {
            if change < blocks {
                return MarksRead::NoMoment;
            }
            upper = letter;
            change = block;
            if are_full(marks, m, block + 1, blocks, letter) {
                break 'search;
            }
        }
    }
    moment(n, upper == sizes.letter_after(2), unfinished, torn, change)
}
