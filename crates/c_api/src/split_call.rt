// The split call for C.

ghost use Rattle.std.specs.Prelude.{◌≡◌};
ghost use Rattle.c_api.specs.Exports.{split_of_bytes};

use crate::list::{MOST_ENTRIES, decode};
use crate::sizes::{number, sizes_of};
use split::call::split;

#[unsafe(no_mangle)]
pub extern "C" fn mover_split(
    n: u32,
    m: u32,
    p: u32,
    s: u32,
    list: &[u8],
    pins: &[u8],
    sets: &mut [u8],
) -> u32
    ensures { record { number = result; sets = sets.new }
        ≡ split_of_bytes (record { n = n; m = m; p = p; s = s }) list.now pins.now sets.old }
{
    let mut entries = [0u16; MOST_ENTRIES];
    let count = decode(list, &mut entries);
    number(split(sizes_of(n, m, p, s), &mut entries[..count], pins, sets))
}
