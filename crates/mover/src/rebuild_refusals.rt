// The refusals of rebuild before those of the marks, in the table's order.
ghost use Rattle.std.specs.Prelude.{◌≡◌};
ghost use Rattle.flash.specs.Refusals.{number_in};
ghost use Rattle.split.specs.Request.{request_of};
ghost use Rattle.mover.specs.inner.Refusals.{rebuild_number};

use crate::refusals::{bad_lent, kept_refusal};
use flash::refusal::Refusal;
use flash::sizes::Sizes;
use walk::rows::TABLE;

// Numbers 1, 2, 3, 11 and 4 of a rebuild, or `Ok` where none of them is given. An entry of 65535 names no page here.
pub fn rebuild_refusal(
    sizes: Sizes,
    list: &[u16],
    pins: &[u8],
    sets: &[u8],
    store: &[u8],
    marks: &[u8],
    area: &[u8],
    flags: &[u8],
) -> Result<(), Refusal>
    ensures { number_in result ≡ rebuild_number (request_of sizes list.now pins.now sets.now)
        (record { store = store.entry.now; marks = marks.now }) area.now flags.now }
{
    if !sizes.in_range() {
        return Err(Refusal::BadSizes);
    }
    let originals = sizes.original_count();
    if bad_lent(sizes, list, pins, sets, store, marks)
        | ((area.len() != originals * sizes.p) | (flags.len() != originals))
    {
        return Err(Refusal::BadLength);
    }
    let mut table = [0u8; TABLE];
    kept_refusal(sizes, list, pins, sets, &mut table)
}
