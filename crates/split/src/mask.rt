// 64-bit masks: bit k tells of set k, or of entry k of a list. What the path asks and changes is numbered in 16 bits, as it is there.
ghost use Rattle.std.specs.Prelude.{◌≡◌, ◌≢◌, ◌<◌, eqb, length, get_or};
ghost use Rattle.split.specs.inner.Mask.{bit_at, lowest_zero, WithBit, FlippedAt, FlippedBoth};

// The lowest set that is not in the mask; 64 if all are.
pub fn lowest_free(mask: u64) -> usize
    ensures { result ≡ lowest_zero mask }
{
    u64::trailing_zeros(!mask) as usize
}

pub fn has(mask: u64, bit: u16) -> bool
    requires { bit < 64 }
    ensures { result ≡ eqb (bit_at mask bit) 1 }
{
    (mask >> bit) & 1 == 1
}

pub fn with_bit(mask: u64, bit: usize) -> u64
    requires { bit < 64 }
    ensures { WithBit mask bit result }
{
    mask | (1u64 << bit)
}

// Flips a bit of one mask of a table; whether it was set.
pub fn flip(masks: &mut [u64], at: u16, bit: u16) -> bool
    requires { (at < length masks.old) × (bit < 64) }
    ensures was { result ≡ eqb (bit_at (get_or masks.old at 0) bit) 1 }
    ensures flips { FlippedAt masks.old at bit masks.new }
{
    let mask = masks[at as usize];
    masks[at as usize] = mask ^ (1u64 << bit);
    has(mask, bit)
}

pub fn flip_both(masks: &mut [u64], at: u16, a: u16, b: u16)
    requires { (at < length masks.old) × (a < 64) × (b < 64) × (a ≢ b) }
    ensures { FlippedBoth masks.old at a b masks.new }
{
    flip(masks, at, a);
    flip(masks, at, b);
}
