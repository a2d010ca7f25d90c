// Which originals can be computed from pages that are sums of originals: elimination over masks of 64 bits.
ghost use Rattle.std.specs.Prelude.{◌≡◌, ◌≤◌};
ghost use Rattle.checker.specs.Pages.{are_determined};
ghost use Rattle.checker.specs.inner.Elimination.{lowest_bit, Echelon, filled_rows, inserted};
ghost use Rattle.checker.specs.inner.Pages.{Masks};

// The most originals, which is the number of bits of a mask.
const MOST_ORIGINALS: usize = 64;

// The number of the mask's lowest bit; 64 if there is none.
fn lowest_bit(mask: u64) -> usize
    ensures { result ≡ lowest_bit mask }
{
    mask.trailing_zeros() as usize
}

// Puts the mask into the row of its lowest bit. A row that is filled is added to it first, which takes that bit away. How many rows are filled then.
fn insert(basis: &mut [u64; MOST_ORIGINALS], filled: usize, mask: u64) -> usize
    requires { Echelon basis.old × (filled ≡ filled_rows basis.old) }
    ensures value { result ≡ filled_rows basis.new }
    ensures basis_after { basis.new ≡ inserted 0 basis.old mask }
{
    let mut rest = mask;
    // How often it turns is known by the rows alone.
    while rest != 0 {
        let i = lowest_bit(rest);
        let row = basis[i];
        if row == 0 {
            basis[i] = rest;
            return filled + 1;
        }
        rest ^= row;
    }
    filled
}

// Whether each original below `count` is a sum of some of the pages: these are sums of no others, so that the rows of all originals must be filled.
pub fn are_determined(pages: &[u64], count: usize) -> bool
    requires { (count ≤ 64) × Masks count pages.now }
    ensures { result ≡ are_determined count pages.now }
{
    let mut basis = [0u64; MOST_ORIGINALS];
    let mut filled = 0;
    for page in pages {
        filled = insert(&mut basis, filled, *page);
    }
    filled == count
}
