// The two Intel HEX calls for C. They take no start letter: the data blocks are at rest with letter 0.

ghost use Rattle.std.specs.Prelude.{◌≡◌};
ghost use Rattle.intel_hex.specs.Answers.{hex_write_answer, hex_read_answer};

use crate::sizes::number;
use intel_hex::call::{read, write};

#[unsafe(no_mangle)]
pub extern "C" fn mover_hex_write(
    n: u32,
    m: u32,
    p: u32,
    store: &[u8],
    marks: &[u8],
    text: &mut [u8],
) -> u32
    ensures { record { number = result; text = text.new }
        ≡ hex_write_answer n m p (record { store = store.entry.now; marks = marks.now }) text.old }
{
    number(write(n as usize, m as usize, p as usize, store, marks, text))
}

#[unsafe(no_mangle)]
pub extern "C" fn mover_hex_read(
    n: u32,
    m: u32,
    p: u32,
    text: &[u8],
    store: &mut [u8],
    marks: &mut [u8],
) -> u32
    ensures { record { number = result; chip = record { store = store.exit.now; marks = marks.new } }
        ≡ hex_read_answer n m p text.now (record { store = store.entry.now; marks = marks.old }) }
{
    number(read(n as usize, m as usize, p as usize, text, store, marks))
}
