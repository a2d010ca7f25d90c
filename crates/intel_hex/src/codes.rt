// Codes one by one: whether they are digits, by ranges, and what these are worth, by their bits. Both can be vector instructions.
ghost use Rattle.std.specs.Prelude.{true, cond, ◌&&◌, ◌≡◌, ◌+◌, ◌*◌, ◌≤◌, ◌<◌, leb, length};
ghost use Rattle.intel_hex.specs.Reading.{digit_value, is_digit};
ghost use Rattle.intel_hex.specs.inner.Lines.{weight_from, others_from, AreDigits};

use crate::CHUNK;

// The codes of a chunk, two a byte.
const CODES: usize = 32;

fn within(code: u8, low: u8, high: u8) -> bool
    ensures { result ≡ (leb low code && leb code high) }
{
    (low <= code) & (code <= high)
}

pub fn is_digit(code: u8) -> bool
    ensures { result ≡ is_digit code }
{
    within(code, 48, 57) | within(code, 65, 70) | within(code, 97, 102)
}

// The value of a digit of either case: letters have bit 6.
pub fn digit(code: u8) -> u8
    requires { is_digit code ≡ true }
    ensures { (result ≡ digit_value code) × (result < 16) }
{
    code % 16 + 9 * (code / 64)
}

pub fn byte_of(high: u8, low: u8) -> u8
    requires { (is_digit high ≡ true) × (is_digit low ≡ true) }
    ensures { result ≡ digit_value high * 16 + digit_value low }
{
    digit(high) * 16 + digit(low)
}

fn other(code: u8) -> u8
    ensures { result ≡ cond (is_digit code) 0 1 }
{
    if is_digit(code) { 0 } else { 1 }
}

// How many of the codes of a chunk are no digit.
pub fn others(text: &[u8], from: usize) -> u8
    requires { from + 32 ≤ length text.now }
    ensures { result ≡ others_from text.now from 32 }
{
    let mut count: u8 = 0;
    for i in 0..CODES {
        count += other(text[from + i]);
    }
    count
}

// What the bytes of a chunk come to whose codes are all digits.
pub fn total(text: &[u8], from: usize) -> u32
    requires { (from + 32 ≤ length text.now) × AreDigits text.now from 32 }
    ensures { result ≡ weight_from text.now from 16 }
{
    let mut sum: u32 = 0;
    for i in 0..CHUNK {
        let at = from + 2 * i;
        sum += u32::from(byte_of(text[at], text[at + 1]));
    }
    sum
}
