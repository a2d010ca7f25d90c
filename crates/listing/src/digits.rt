// Numbers and texts printed into a lent part, from a position on. Each function answers the next position.
ghost use Rattle.std.specs.Prelude.{◌≡◌, ◌++◌, ◌+◌, ◌≤◌, ◌<◌, length};
ghost use Rattle.flash.specs.Lists.{concat_map};
ghost use Rattle.listing.specs.Digits.{small, digit_of, digits, places_up_to, decimal, hex};
ghost use Rattle.listing.specs.Lines.{Printed};

fn digit_of(d: usize) -> u8
    requires { d < 16 }
    ensures { result ≡ digit_of small d }
{
    if d < 10 {
        b'0' + d as u8
    } else {
        b'a' - 10 + d as u8
    }
}

// How many decimal digits n has.
fn count_places(n: usize) -> usize
    ensures { result ≡ places_up_to n n }
{
    let mut count = 1;
    let mut rest = n;
    // What is left of n steers the loop: nothing is gone through.
    while 10 <= rest {
        rest = rest / 10;
        count += 1;
    }
    count
}

// The last `count` digits of n, of which the lowest is written first.
fn put_digits(out: &mut [u8], at: usize, base: usize, count: usize, n: usize) -> usize
    requires le_base { (1 ≤ base) × (base ≤ 16) }
    requires count_in_bounds { at + count ≤ length out.old }
    ensures { Printed (digits small base count n) out.old at out.new result }
{
    let end = at + count;
    let mut rest = n;
    for i in (at..end).rev() {
        out[i] = digit_of(rest % base);
        rest /= base;
    }
    end
}

pub fn put_decimal(out: &mut [u8], at: usize, n: usize) -> usize
    requires { at + length (decimal n) ≤ length out.old }
    ensures { Printed (decimal n) out.old at out.new result }
{
    put_digits(out, at, 10, count_places(n), n)
}

pub fn put_hex(out: &mut [u8], at: usize, bytes: &[u8]) -> usize
    requires { at + length (concat_map (hex small) bytes.now) ≤ length out.old }
    ensures { Printed (concat_map (hex small) bytes.now) out.old at out.new result }
{
    let mut next = at;
    for byte in bytes {
        next = put_digits(out, next, 16, 2, usize::from(*byte));
    }
    next
}

pub fn put_text(out: &mut [u8], at: usize, text: &[u8]) -> usize
    requires { at + length text.now ≤ length out.old }
    ensures { Printed text.now out.old at out.new result }
{
    let next = at + text.len();
    out[at..next].copy_from_slice(text);
    next
}

// A text, and a number behind it.
pub fn put_field(out: &mut [u8], at: usize, text: &[u8], n: usize) -> usize
    requires { at + length (text.now ++ decimal n) ≤ length out.old }
    ensures { Printed (text.now ++ decimal n) out.old at out.new result }
{
    let next = put_text(out, at, text);
    put_decimal(out, next, n)
}
