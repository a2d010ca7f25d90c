// One step of the move: a page is written or a block is erased.
ghost use Rattle.std.specs.Prelude.{◌≡◌, ◌≢◌, true, false, ◌||◌, is_none, cond, List, [], ℕ, ◌+◌, ◌-◌, ◌*◌, ◌≤◌, ◌<◌, length, get_or};
ghost use Rattle.flash.specs.Geometry.{slot_count, store_len, marks_len};
ghost use Rattle.method.specs.Place.{marks_of, operation_at};
ghost use Rattle.method.specs.Step as method;
ghost use Rattle.method.specs.Step.{running_of, write_terms, tallied};
ghost use Rattle.method.specs.inner.MoveIn.{move_in};
ghost use Rattle.method.specs.inner.Shape.{Shape};
ghost use Rattle.walk.specs.inner.Slots.{slots_length};
ghost use Rattle.walk.specs.inner.Terms.{AddsUp};
ghost use Rattle.places.specs.inner.Place.{pass_of, place_of};
ghost use Rattle.mover.specs.inner.Prepared.{plan_in};
ghost use Rattle.mover.specs.inner.Steps.{OtherTable, SetRows};

use crate::prepared::Prepared;
use flash::block::erase_block;
use flash::totals::total_to_slot;
use method::tally::Tally;
use places::place::{Op, Place};
use walk::rows::{ROW, TABLE, row, set_rows};
use walk::terms::{Addends, backward_terms, forward_terms};
use walk::walk::SLOTS;

// The set of a page that is written: its number, or what the table has where the page goes.
fn set_written(m: usize, table: &[u8], backward: bool, block: usize, page: usize) -> usize
    requires { (m ≤ 64) × (block ≤ 64) × (page < m) × (backward ≡ true → (1 ≤ block) × ((block - 1) * m + page < length table.now)) }
    ensures { (backward ≡ false → result ≡ page) × (backward ≡ true → result ≡ get_or table.now ((block - 1) * m + page) 0) }
{
    if backward {
        return usize::from(table[(block - 1) * m + page]);
    }
    page
}

// What is summed for a write, by the rows of its set. The block that is being filled tells what the others are full of, so that the marks are not
// looked at. Two rows and not `Rows`: in the backward pass there is no row of sources, which would have to prove its fact.
fn row_terms(
    prepared: Prepared,
    set: usize,
    pages: &[u8],
    sources: &[u8],
    backward: bool,
    block: usize,
    page: usize,
    slots: &mut [usize; SLOTS],
) -> Addends
    requires rows { SetRows (move_in prepared.moved) backward block page set pages.now sources.now }
    requires block_in { (length slots.old ≡ slots_length) × (page < prepared.moved.sizes.m) × (block ≤ prepared.moved.sizes.n)
        × (backward ≡ true → 1 ≤ block) × (backward ≡ false → block + 1 ≤ prepared.moved.sizes.n) }
    ensures count_le_slots_length { let Z = prepared.entry.moved.sizes in (result.count ≤ slots_length) × (length slots.new ≡ slots_length)
        × ((j : ℕ) → j < result.count → (get_or slots.new j 0 < slot_count Z) × (get_or slots.new j 0 ≢ block * Z.m + page)) }
    ensures by_index { (marks : List ℕ) → Shape prepared.entry.moved.sizes marks block (block + 1) (cond backward 2 0)
        → AddsUp prepared.entry.moved.sizes (write_terms (plan_in prepared.entry) (pass_of backward) block page marks) slots.new result }
{
    let sizes = prepared.moved.sizes;
    let divisor = prepared.divisor;
    let list = prepared.moved.list;
    let drops = prepared.drops;
    let places = prepared.places;
    if backward {
        return backward_terms(sizes, divisor, list, set, pages, places, block, page, slots);
    }
    forward_terms(sizes, set, pages, sources, drops, block, slots)
}

// The same, with rows that are taken from the tables, or filled first where only few steps are taken. The rows are chosen before, so that there is
// one call of what sums them, which is then compiled in its place.
fn write_terms(
    prepared: Prepared,
    other: &[u8; TABLE],
    backward: bool,
    block: usize,
    page: usize,
    slots: &mut [usize; SLOTS],
) -> Addends
    requires other_tells { OtherTable (move_in prepared.moved) (backward || is_none prepared.pages) other.now }
    requires block_in { (length slots.old ≡ slots_length) × (page < prepared.moved.sizes.m) × (block ≤ prepared.moved.sizes.n)
        × (backward ≡ true → 1 ≤ block) × (backward ≡ false → block + 1 ≤ prepared.moved.sizes.n) }
    ensures count_le_slots_length { let Z = prepared.entry.moved.sizes in (result.count ≤ slots_length) × (length slots.new ≡ slots_length)
        × ((j : ℕ) → j < result.count → (get_or slots.new j 0 < slot_count Z) × (get_or slots.new j 0 ≢ block * Z.m + page)) }
    ensures by_index { (marks : List ℕ) → Shape prepared.entry.moved.sizes marks block (block + 1) (cond backward 2 0)
        → AddsUp prepared.entry.moved.sizes (write_terms (plan_in prepared.entry) (pass_of backward) block page marks) slots.new result }
{
    let set = set_written(prepared.moved.sizes.m, other, backward, block, page);
    let mut own_pages = [0u8; ROW];
    let mut own_sources = [0u8; ROW];
    let rows = match prepared.pages {
        Some(pages) => (row(pages, set), row(other, set)),
        None => {
            set_rows(prepared.moved, set, &mut own_pages, &mut own_sources);
            (&own_pages[..], &own_sources[..])
        }
    };
    row_terms(prepared, set, rows.0, rows.1, backward, block, page, slots)
}

// Does the step at a place, and counts it. A page is summed where it is to lie; the slots that are gathered for that are read once each, and of
// no use after.
pub fn step(
    prepared: Prepared,
    other: &[u8; TABLE],
    slots: &mut [usize; SLOTS],
    store: &mut [u8],
    marks: &mut [u8],
    place: Place,
    mut tally: Tally,
) -> Tally
    requires other_tells { OtherTable (move_in prepared.moved) (place.backward || is_none prepared.pages) other.now }
    requires place_is { let Z = prepared.moved.sizes in (place ≡ place_of Z place.at) × (marks.old ≡ marks_of Z place.at)
        × (length slots.old ≡ slots_length) × (length store.old ≡ store_len Z) × (length marks.old ≡ marks_len Z) }
    requires tally_small { (tally.steps ≤ 8320) × (tally.writes ≤ 8320) × (tally.erases ≤ 8320) × (tally.bytes ≤ 8320 * 4096)
        × (tally.reads ≤ 8320 * 64) }
    ensures fact { let X = plan_in prepared.entry in
        let after = method.step X place.at (running_of store.entry.now marks.old []) in
        (record { store = store.exit.now; marks = marks.new } ≡ after.chip)
        × (result ≡ tallied X (operation_at X.move.sizes place.at) marks.old after.work tally) }
    ensures slots_len { length slots.new ≡ slots_length }
{
    let sizes = prepared.moved.sizes;
    match place.operation(sizes) {
        Op::Write {
            backward,
            block,
            page,
            mark,
        } => {
            let terms = write_terms(prepared, other, backward, block, page, slots);
            let slot = block * sizes.m + page;
            let written = total_to_slot(store, sizes.p, &slots[..terms.count], terms.filler, slot);
            marks[slot] = mark;
            tally.steps += 1;
            tally.writes += 1;
            tally.bytes += written as u32;
            tally.reads += terms.count as u32;
            tally
        }
        Op::Erase { block } => {
            erase_block(store, marks, sizes.m, sizes.p, block);
            tally.steps += 1;
            tally.erases += 1;
            tally
        }
        Op::Done => tally,
    }
}
