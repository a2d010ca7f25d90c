// The sizes as C passes them, and refusals as C is told them.

ghost use Rattle.std.specs.Prelude.{◌≡◌, cond};
ghost use Rattle.flash.specs.Geometry.{in_range};
ghost use Rattle.flash.specs.Refusals.{number_of, number_in};

use flash::refusal::Refusal;
use flash::sizes::Sizes;

pub fn sizes_of(n: u32, m: u32, p: u32, s: u32) -> Sizes
    ensures { result ≡ record { n = n; m = m; p = p; s = s } }
{
    Sizes {
        n: n as usize,
        m: m as usize,
        p: p as usize,
        s: s as usize,
    }
}

// The refusal of a lent part of a wrong length: sizes out of range come before it.
pub fn bad_length(sizes: Sizes) -> Refusal
    ensures { number_of result ≡ cond (in_range sizes) 2 1 }
{
    if sizes.in_range() {
        Refusal::BadLength
    } else {
        Refusal::BadSizes
    }
}

// The number that C is told: 0 where the call was carried out.
pub fn number(answer: Result<(), Refusal>) -> u32
    ensures { result ≡ number_in answer }
{
    match answer {
        Ok(()) => 0,
        Err(refusal) => refusal.number(),
    }
}
