// The read call for C.

ghost use Rattle.std.specs.Prelude.{◌≡◌};
ghost use Rattle.c_api.specs.Exports.{read_of_bytes};

use crate::list::{MOST_ENTRIES, decode};
use crate::sizes::sizes_of;
use mover::read::read;

#[unsafe(no_mangle)]
pub extern "C" fn mover_read(
    n: u32,
    m: u32,
    p: u32,
    s: u32,
    list: &[u8],
    pins: &[u8],
    sets: &[u8],
    store: &[u8],
    marks: &[u8],
    work: &mut [u8],
    original: u32,
    count: &mut u32,
    bytes: &mut u32,
) -> u32
    ensures { record { number = result; count = count.new; bytes = bytes.new; work = work.new }
        ≡ read_of_bytes (record { n = n; m = m; p = p; s = s }) list.now pins.now sets.now
        (record { store = store.entry.now; marks = marks.now }) work.old original }
{
    let mut entries = [0u16; MOST_ENTRIES];
    let length = decode(list, &mut entries);
    let answer = read(
        sizes_of(n, m, p, s),
        &mut entries[..length],
        pins,
        sets,
        store,
        marks,
        work,
        original as usize,
    );
    match answer {
        Ok(summed) => {
            *count = summed.count;
            *bytes = summed.bytes;
            0
        }
        Err(refusal) => {
            *count = 0;
            *bytes = 0;
            refusal.number()
        }
    }
}
