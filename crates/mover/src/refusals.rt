// The refusals that run and read share, in the table's order.
ghost use Rattle.std.specs.Prelude.{◌≡◌, [], ◌||◌, ◌*◌, ◌≤◌, eqb, length, replicate};
ghost use Rattle.flash.specs.Refusals.{number_in};
ghost use Rattle.split.specs.Request.{request_of, bad_request};
ghost use Rattle.flash.specs.Tables.{refusal};
ghost use Rattle.split.specs.Drops.{list_left};
ghost use Rattle.split.specs.inner.Dropping.{DropsTold};
ghost use Rattle.split.specs.inner.Rows.{ByDestination};
ghost use Rattle.method.specs.Answers.{bad_chip, bad_parts, move_rows};
ghost use Rattle.mover.specs.inner.Refusals.{kept_number};

use flash::refusal::Refusal;
use flash::sizes::Sizes;
use split::drops::{MASKS, complete, has_drop};
use split::list::list_refusal;
use split::pins::moves_pinned;
use split::rows::sets_refusal;
use walk::rows::TABLE;

// Whether a part that run, read and rebuild are lent is not of its exact length.
pub fn bad_lent(
    sizes: Sizes,
    list: &[u16],
    pins: &[u8],
    sets: &[u8],
    store: &[u8],
    marks: &[u8],
) -> bool
    requires { (sizes.n ≤ 64) × (sizes.m ≤ 64) × (sizes.p ≤ 4096) }
    ensures { result ≡ (bad_request (request_of sizes list.now pins.now sets.now)
        || bad_chip sizes (record { store = store.entry.now; marks = marks.now })) }
{
    let originals = sizes.original_count();
    let slots = sizes.slot_count();
    let bytes = sizes.store_length();
    ((list.len() != originals) | (pins.len() != originals) | (sets.len() != originals))
        | ((store.len() != bytes) | (marks.len() != slots))
}

// Number 2 of run and read: whether a lent part is not of its exact length.
fn bad_parts(
    sizes: Sizes,
    list: &[u16],
    pins: &[u8],
    sets: &[u8],
    store: &[u8],
    marks: &[u8],
    work: &[u8],
) -> bool
    requires { (sizes.n ≤ 64) × (sizes.m ≤ 64) × (sizes.p ≤ 4096) }
    ensures { result ≡ bad_parts (request_of sizes list.now pins.now sets.now)
        (record { store = store.entry.now; marks = marks.now }) work.now }
{
    bad_lent(sizes, list, pins, sets, store, marks) | (work.len() != sizes.p)
}

// Whether the list itself was refused, and not the split.
fn is_bad_list(judged: Result<(), Refusal>) -> bool
    ensures { result ≡ eqb (number_in judged) 3 }
{
    match judged {
        Err(refusal) => matches!(refusal, Refusal::BadList),
        Ok(()) => false,
    }
}

// Numbers 3, 11 and 4 of a list that drops nothing: the list decides, then the pins, and then the split. Where none is given the table has the sets
// by destination.
pub fn kept_refusal(
    sizes: Sizes,
    list: &[u16],
    pins: &[u8],
    sets: &[u8],
    table: &mut [u8; TABLE],
) -> Result<(), Refusal>
    requires { (1 ≤ sizes.m) × (sizes.n ≤ 64) × (sizes.m ≤ 64) × (length list.now ≡ sizes.n * sizes.m)
        × (length pins.now ≡ sizes.n * sizes.m) × (length sets.now ≡ sizes.n * sizes.m) }
    ensures value { number_in result ≡ kept_number sizes list.now pins.now sets.now }
    ensures by_destination { number_in result ≡ 0 → ByDestination list.now sets.now table.new }
{
    let judged = sets_refusal(sizes.n, sizes.m, list, sets, table);
    if !is_bad_list(judged) & moves_pinned(pins, list) {
        return Err(Refusal::BadPins);
    }
    judged
}

// Numbers 1, 2, 3, 11 and 4. Where none of them is given the table has the sets by destination. Before number 4 is looked for, the list is completed
// in place, and the bits tell which pages are dropped and where they go. Nothing is computed from sizes that are out of their range.
pub fn move_refusal(
    sizes: Sizes,
    list: &mut [u16],
    pins: &[u8],
    sets: &[u8],
    store: &[u8],
    marks: &[u8],
    work: &[u8],
    table: &mut [u8; TABLE],
    drops: &mut [u64; MASKS],
    places: &mut [u64; MASKS],
) -> Result<(), Refusal>
    requires { (drops.old ≡ replicate 64 0) × (places.old ≡ replicate 64 0) }
    ensures value { number_in result ≡ refusal (move_rows (request_of sizes list.old pins.now sets.now)
        (record { store = store.entry.now; marks = marks.now }) work.now []) }
    ensures list_after { list.new ≡ list_left (number_in result) list.old }
    ensures by_destination { number_in result ≡ 0 → ByDestination list.new sets.now table.new
        × DropsTold list.old drops.new places.new }
{
    if !sizes.in_range() {
        return Err(Refusal::BadSizes);
    }
    if bad_parts(sizes, list, pins, sets, store, marks, work) {
        return Err(Refusal::BadLength);
    }
    if has_drop(list) {
        list_refusal(list, pins, sizes.original_count(), places)?;
        complete(list, drops, places);
        return sets_refusal(sizes.n, sizes.m, list, sets, table);
    }
    kept_refusal(sizes, list, pins, sets, table)
}
