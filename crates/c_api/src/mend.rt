// The recovery call for C.

ghost use Rattle.std.specs.Prelude.{◌≡◌};
ghost use Rattle.c_api.specs.Exports.{mended_bytes, mend_of_bytes};

use crate::sizes::{bad_length, sizes_of};
use crate::wear::{WEAR, decode_wear, encode_wear};
use flash::refusal::Refusal;
use flash::sizes::Sizes;
use recovery::mend::{Mended, mend};

// The recovery with the counters that bytes spell. They stay as they are where no block was erased.
fn mend_bytes(
    sizes: Sizes,
    store: &mut [u8],
    marks: &mut [u8],
    wear: &mut [u8],
) -> Result<Mended, Refusal>
    ensures { mended_bytes result store.exit.now marks.new wear.new
        ≡ mend_of_bytes sizes (record { store = store.entry.now; marks = marks.old }) wear.old }
{
    if wear.len() != WEAR {
        return Err(bad_length(sizes));
    }
    let mended = mend(sizes, store, marks, decode_wear(wear));
    let done = mended.outcome?;
    if done.erases != 0 {
        encode_wear(mended.wear, wear);
    }
    Ok(done)
}

#[unsafe(no_mangle)]
pub extern "C" fn mover_mend(
    n: u32,
    m: u32,
    p: u32,
    s: u32,
    store: &mut [u8],
    marks: &mut [u8],
    wear: &mut [u8],
    place: &mut u32,
    erases: &mut u32,
) -> u32
    ensures { record {
      number = result;
      place = place.new;
      erases = erases.new;
      chip = record { store = store.exit.now; marks = marks.new };
      wear = wear.new;
    } ≡ mend_of_bytes (record { n = n; m = m; p = p; s = s }) (record { store = store.entry.now; marks = marks.old })
        wear.old }
{
    match mend_bytes(sizes_of(n, m, p, s), store, marks, wear) {
        Ok(mended) => {
            *place = mended.place;
            *erases = mended.erases;
            0
        }
        Err(refusal) => {
            *place = 0;
            *erases = 0;
            refusal.number()
        }
    }
}
