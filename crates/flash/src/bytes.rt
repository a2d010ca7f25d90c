// Bytes of one part of the store or the marks. All loops over bytes are here, but for the sum's.

ghost use Rattle.std.specs.Prelude.{◌≡◌, cond, ℕ, ◌^◌, ◌≤◌, ◌<◌, eqb, ltb, length, get_or, replicate};
ghost use Rattle.flash.specs.Lists.{all};
ghost use Rattle.flash.specs.PageSum.{◌⊕◌, written_bytes};

use crate::ERASED;

// As many bytes as are counted in a byte at once.
pub const FEW: usize = 128;

// A page of 255s is added to a page.
pub fn invert(page: &mut [u8])
    ensures { page.new ≡ replicate (length page.old) 255 ⊕ page.old }
{
    for byte in page.iter_mut() {
        *byte = ERASED ^ *byte;
    }
}

// Whether each of the bytes is 255: then all of them have every bit. The bits in common are gathered and judged once, so that the loop has no branch
// and is compiled to vector instructions.
fn is_erased(bytes: &[u8]) -> bool
    ensures { result ≡ all (λ byte. eqb byte 255) bytes.now }
{
    let mut common: u8 = ERASED;
    for byte in bytes {
        common = common & *byte;
    }
    common == ERASED
}

// Whether each of the bytes is `value`. Bits that differ are gathered likewise, which takes an instruction more for each vector.
pub fn is_filled(bytes: &[u8], value: u8) -> bool
    ensures { result ≡ all (λ byte. eqb byte value) bytes.now }
{
    if value == ERASED {
        return is_erased(bytes);
    }
    let mut different: u8 = 0;
    for byte in bytes {
        different = different | (*byte ^ value);
    }
    different == 0
}

// Whether each of the bytes is below `limit`, a power of two: then so are the bits of all together, gathered likewise.
pub fn are_below(bytes: &[u8], limit: u8) -> bool
    requires { (k : ℕ) × (limit ≡ 2 ^ k) }
    ensures { result ≡ all (λ byte. ltb byte limit) bytes.now }
{
    let mut bits: u8 = 0;
    for byte in bytes {
        bits = bits | *byte;
    }
    bits < limit
}

// A number, or 0.
fn kept(keep: bool, number: u8) -> u8
    ensures { result ≡ cond keep number 0 }
{
    if keep { number } else { 0 }
}

// Where the one byte that is `value` stands. Positions are gathered as bits, so that this loop has no branch either.
pub fn position(bytes: &[u8], value: u8) -> u8
    requires { length bytes.now ≤ 256 }
    ensures { (at : ℕ) → at < length bytes.now → get_or bytes.now at 0 ≡ value
        → ((i : ℕ) → i < length bytes.now → get_or bytes.now i 0 ≡ value → i ≡ at) → result ≡ at }
{
    let mut found: u8 = 0;
    for (i, byte) in bytes.iter().enumerate() {
        found = found | kept(*byte == value, i as u8);
    }
    found
}

// The bytes of one part are put into another. Where the compiler does not see that the two lie apart, it makes `memmove` of `copy_from_slice`, a name
// that a program for a chip need not have; of this loop, in a function of its own, it makes `memcpy`.
pub fn copy(target: &mut [u8], source: &[u8])
    requires { length source.now ≡ length target.old }
    ensures { target.new ≡ source.now }
{
    for (i, byte) in target.iter_mut().enumerate() {
        *byte = source[i];
    }
}

// How many of a few bytes are not erased. They are counted in a byte, since vector instructions add as many at once as they compare.
pub fn count_few(bytes: &[u8]) -> u8
    requires { length bytes.now ≤ 128 }
    ensures { result ≡ written_bytes bytes.now }
{
    let mut count: u8 = 0;
    for byte in bytes {
        count += (*byte != ERASED) as u8;
    }
    count
}

// How many bytes of a page are not erased.
pub fn count_written(page: &[u8]) -> usize
    ensures { result ≡ written_bytes page.now }
{
    let mut count = 0;
    let mut i = 0;
    // pieces of one fixed length and a rest apart: the loop over a piece is unrolled, which one over `chunks` is not
    while FEW <= page.len() - i {
        let end = i + FEW;
        count += usize::from(count_few(&page[i..end]));
        i = end;
    }
    count + usize::from(count_few(&page[i..page.len()]))
}
