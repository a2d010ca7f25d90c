// The two calls: a store at rest written as text, and read from it. The refusals are looked for in the table's order, so that no length
// is computed from sizes out of range.
ghost use Rattle.std.specs.Prelude.{◌≡◌, ◌++◌, ◌-◌, ◌≤◌, length, drop, replicate};
ghost use Rattle.flash.specs.Chip.{erased};
ghost use Rattle.flash.specs.Refusals.{number_in};
ghost use Rattle.intel_hex.specs.Answers.{hex_write_answer, hex_read_answer};

use crate::read;
use crate::write::{length_of, put_image};
use flash::ERASED;
use flash::refusal::Refusal;
use flash::sizes::Sizes;
use places::place_marks::is_elsewhere;

pub fn write(
    n: usize,
    m: usize,
    p: usize,
    store: &[u8],
    marks: &[u8],
    text: &mut [u8],
) -> Result<(), Refusal>
    ensures { record { number = number_in result; text = text.new }
        ≡ hex_write_answer n m p (record { store = store.entry.now; marks = marks.now }) text.old }
{
    let sizes = Sizes { n, m, p, s: 0 };
    if !sizes.in_range() {
        return Err(Refusal::BadSizes);
    }
    let first = m * p;
    if (store.len() != sizes.store_length())
        | (marks.len() != sizes.slot_count())
        | (text.len() != length_of(n * m * p))
    {
        return Err(Refusal::BadLength);
    }
    if is_elsewhere(sizes, store, marks, 0) {
        return Err(Refusal::BadPlace);
    }
    put_image(&store[first..], text);
    Ok(())
}

// The spare is blank, and the data blocks are marked 0.
fn set_rest(store: &mut [u8], marks: &mut [u8], spare: usize, pages: usize)
    requires { (spare ≤ length store.old) × (pages ≤ length marks.old) }
    ensures { (store.new ≡ replicate spare erased ++ drop spare store.old)
        × (marks.new ≡ replicate pages erased ++ replicate (length marks.old - pages) 0) }
{
    store[..spare].fill(ERASED);
    marks[..pages].fill(ERASED);
    marks[pages..].fill(0);
}

pub fn read(
    n: usize,
    m: usize,
    p: usize,
    text: &[u8],
    store: &mut [u8],
    marks: &mut [u8],
) -> Result<(), Refusal>
    ensures { record { number = number_in result; chip = record { store = store.exit.now; marks = marks.new } }
        ≡ hex_read_answer n m p text.now (record { store = store.entry.now; marks = marks.old }) }
{
    let sizes = Sizes { n, m, p, s: 0 };
    if !sizes.in_range() {
        return Err(Refusal::BadSizes);
    }
    if (store.len() != sizes.store_length()) | (marks.len() != sizes.slot_count()) {
        return Err(Refusal::BadLength);
    }
    let spare = m * p;
    read::read(text, &mut store[spare..])?;
    set_rest(store, marks, spare, m);
    Ok(())
}
