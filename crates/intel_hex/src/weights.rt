// Codes are valued by a table: a digit of either case weighs its value, and any other code more than the bytes of a record come to.
ghost use Rattle.std.specs.Prelude.{◌≡◌, ◌≤◌};
ghost use Rattle.intel_hex.specs.inner.Lines.{weight_of, Weigh};

use crate::codes::{digit, is_digit};

pub const NO_DIGIT: u32 = 131072;

fn weight(code: u8) -> u32
    ensures { result ≡ weight_of code }
{
    if is_digit(code) {
        u32::from(digit(code))
    } else {
        NO_DIGIT
    }
}

#[derive(Drop)]
pub struct Weights {
    table: [u32; 256],
    ghost weigh: { Weigh table },
}

impl Weights {
    pub fn new() -> Self {
        let mut table = [0u32; 256];
        for (code, entry) in table.iter_mut().enumerate() {
            *entry = weight(code as u8);
        }
        Weights { table }
    }

    pub fn of(&self, code: u8) -> u32
        ensures { (result ≡ weight_of code) × (result ≤ 131072) }
    {
        self.table[usize::from(code)]
    }
}
