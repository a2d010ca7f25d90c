// The rebuild call for C.

ghost use Rattle.std.specs.Prelude.{◌≡◌};
ghost use Rattle.c_api.specs.Exports.{rebuild_of_bytes};

use crate::list::{MOST_ENTRIES, decode};
use crate::sizes::{number, sizes_of};
use mover::rebuild::rebuild;

#[unsafe(no_mangle)]
pub extern "C" fn mover_rebuild(
    n: u32,
    m: u32,
    p: u32,
    s: u32,
    list: &[u8],
    pins: &[u8],
    sets: &[u8],
    store: &[u8],
    marks: &[u8],
    area: &mut [u8],
    flags: &mut [u8],
    slot: u32,
) -> u32
    ensures { record { number = result; area = area.new; flags = flags.new }
        ≡ rebuild_of_bytes (record { n = n; m = m; p = p; s = s }) list.now pins.now sets.now
        (record { store = store.entry.now; marks = marks.now }) area.old flags.old slot }
{
    let mut entries = [0u16; MOST_ENTRIES];
    let length = decode(list, &mut entries);
    number(rebuild(
        sizes_of(n, m, p, s),
        &entries[..length],
        pins,
        sets,
        store,
        marks,
        area,
        flags,
        slot as usize,
    ))
}
