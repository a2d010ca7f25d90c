// The check of another mover's steps for C.

ghost use Rattle.std.specs.Prelude.{◌≡◌, min};
ghost use Rattle.c_api.specs.CheckExport.{last_line, check_of_bytes};

use crate::list::{MOST_ENTRIES, decode};
use checker::check::check;
use checker::fault::Fault;

// A line's number in 32 bits, or the last that they hold.
fn line_told(line: usize) -> u32
    ensures { result ≡ min line last_line }
{
    u32::try_from(line).unwrap_or(u32::MAX)
}

#[unsafe(no_mangle)]
pub extern "C" fn mover_check_listing(
    n: u32,
    m: u32,
    list: &[u8],
    text: &[u8],
    line: &mut u32,
    accepted: &mut u32,
) -> u32
    ensures { record { number = result; line = line.new; accepted = accepted.new }
        ≡ check_of_bytes n m list.now text.now }
{
    let mut entries = [0u16; MOST_ENTRIES];
    let count = decode(list, &mut entries);
    match check(n as usize, m as usize, &entries[..count], text) {
        Ok(yes) => {
            *line = 0;
            *accepted = u32::from(yes);
            0
        }
        Err(Fault::Lent(refusal)) => {
            *line = 0;
            *accepted = 0;
            refusal.number()
        }
        Err(
            Fault::Line {
                refusal,
                line: faulty,
            },
        ) => {
            *line = line_told(faulty);
            *accepted = 0;
            refusal.number()
        }
    }
}
