// A page number divided by the pages of a block, by a product: a division takes several times as long, and every call makes some
// for each page.
ghost use Rattle.std.specs.Prelude.{◌≡◌, ◌/◌, ◌≤◌, ◌<◌};
ghost use Rattle.flash.specs.inner.Reciprocal.{reciprocal_of};

// As large as the products below can tell apart: 65,536 page numbers times 64 pages of a block.
const SCALE: usize = 65536 * 64;

// What page numbers are divided by, and what they are multiplied by for it.
#[derive(Clone, Copy)]
pub struct Divisor {
    pub by: usize, // the pages of a block
    pub reciprocal: usize,
    ghost in_range: { (1 ≤ by) × (by ≤ 64) },
    ghost inverts: { reciprocal ≡ reciprocal_of by },
}

// What a page number is multiplied by, for m pages a block.
pub fn reciprocal(m: usize) -> usize
    requires { 1 ≤ m }
    ensures { result ≡ reciprocal_of m }
{
    SCALE / m + 1
}

impl Divisor {
    pub fn new(by: usize) -> Divisor
        requires { (1 ≤ by) × (by ≤ 64) }
        ensures { result.by ≡ by }
    {
        Divisor {
            by,
            reciprocal: reciprocal(by),
        }
    }

    pub fn quotient(self, number: usize) -> usize
        requires { number < 65536 }
        ensures { result ≡ number / self.by }
    {
        number * self.reciprocal / SCALE
    }
}
