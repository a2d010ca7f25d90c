// Numbers and fields of a text, at a position. A number may have any number of digits.
ghost use Rattle.std.specs.Prelude.{◌≡◌, ◌+◌, ◌-◌, ◌*◌, ◌≤◌, min, eqb, length, get_or, drop};
ghost use Rattle.checker.specs.Lines.{leading, is_number};
ghost use Rattle.checker.specs.inner.Told.{cap, number_at, field_at};

use listing::number::{digit_value, is_digit};

// Larger numbers count as this one.
const CAP: usize = 18446744073709551610;

// Ten times this and a digit is less than the cap.
const TENTH: usize = 1844674407370955160;

const ZERO: u8 = 48;

pub const SPACE: u8 = 32;

// A number: its value up to the cap, and the position behind its digits.
#[derive(Clone, Copy)]
pub struct Number {
    pub value: usize,
    pub next: usize,
}

// A number with one digit more.
fn more(value: usize, digit: u8) -> usize
    requires { (48 ≤ digit) × (digit ≤ 57) }
    ensures { result ≡ min (value * 10 + (digit - 48)) cap }
{
    if value <= TENTH {
        value * 10 + digit_value(digit) as usize
    } else {
        CAP
    }
}

// Whether so many digits from a position on are a number: there are some, and no 0 stands in front of others.
fn is_number(text: &[u8], at: usize, size: usize) -> bool
    requires { (at + size ≤ length text.now) × (size ≡ length (leading (drop at text.now))) }
    ensures { result ≡ is_number (leading (drop at text.now)) }
{
    size == 1 || size > 1 && text[at] != ZERO
}

// The number at a position, if one stands there.
pub fn read_number(text: &[u8], at: usize) -> Option<Number>
    requires { at ≤ length text.now }
    ensures { result ≡ number_at text.now at }
{
    let mut next = at;
    let mut value = 0;
    for byte in &text[at..] {
        if !is_digit(*byte) {
            break;
        }
        value = more(value, *byte);
        next += 1;
    }
    if is_number(text, at, next - at) {
        Some(Number { value, next })
    } else {
        None
    }
}

// Whether a byte that is not 0 stands at a position.
pub fn is_at(text: &[u8], at: usize, byte: u8) -> bool
    requires { 1 ≤ byte }
    ensures { result ≡ eqb (get_or text.now at 0) byte }
{
    at < text.len() && text[at] == byte
}

// A space and a number.
pub fn field(text: &[u8], at: usize) -> Option<Number>
    requires { at ≤ length text.now }
    ensures { result ≡ field_at text.now at }
{
    if is_at(text, at, SPACE) {
        read_number(text, at + 1)
    } else {
        None
    }
}
