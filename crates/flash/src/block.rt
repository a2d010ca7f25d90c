// A block: its pages in the store and its marks.

ghost use Rattle.std.specs.Prelude.{◌≡◌, ◌+◌, ◌*◌, ◌≤◌, length, replicate};
ghost use Rattle.flash.specs.Lists.{set_part};
ghost use Rattle.flash.specs.Chip.{erased, is_full, erase_block};

use crate::ERASED;
use crate::bytes::is_filled;

// A block's bytes, or its marks, are erased. Only its part is filled, so nothing beside it can change.
fn erase_part(bytes: &mut [u8], size: usize, block: usize)
    requires { block * size + size ≤ length bytes.old }
    ensures { bytes.new ≡ set_part size block bytes.old (replicate size erased) }
{
    let start = block * size;
    bytes[start..start + size].fill(ERASED);
}

// All pages of the block become blank.
pub fn erase_block(store: &mut [u8], marks: &mut [u8], m: usize, p: usize, block: usize)
    requires p_in_bounds { block * (m * p) + m * p ≤ length store.old }
    requires m_in_bounds { block * m + m ≤ length marks.old }
    ensures { record { store = store.exit.now; marks = marks.new }
        ≡ erase_block m p block (record { store = store.entry.now; marks = marks.old }) }
{
    erase_part(store, m * p, block);
    erase_part(marks, m, block);
}

// Whether all marks of the block are this letter.
pub fn is_full(marks: &[u8], m: usize, block: usize, letter: u8) -> bool
    requires { block * m + m ≤ length marks.now }
    ensures { result ≡ is_full m marks.now block letter }
{
    is_filled(&marks[block * m..block * m + m], letter)
}
