// The sizes of a move, and how long each lent part is.

ghost use Rattle.std.specs.Prelude.{◌≡◌, ◌≤◌, ◌<◌};
ghost use Rattle.flash.specs.Geometry.{letter, in_range, original_count, slot_count, store_len};

use crate::LETTERS;

// What the sizes may be at most.
pub const MOST_BLOCKS: usize = 64;

pub const MOST_PAGES: usize = 64;

pub const MOST_PAGE_BYTES: usize = 4096;

// What each call is given besides the lent parts. The definitions use this struct as it is.
#[derive(Clone, Copy)]
pub struct Sizes {
    pub n: usize, // data blocks, 1 to 64, numbered 1 to n; block 0 is the spare
    pub m: usize, // pages of a block, 1 to 64
    pub p: usize, // bytes of a page, 1 to 4,096
    pub s: usize, // the start letter, 0 to 2: the mark of the data blocks before the move
}

impl Sizes {
    // Whether the sizes are in their ranges. Nothing is multiplied before they are.
    pub fn in_range(self) -> bool
        ensures { result ≡ in_range self }
    {
        (1 <= self.n)
            & (self.n <= MOST_BLOCKS)
            & (1 <= self.m)
            & (self.m <= MOST_PAGES)
            & (1 <= self.p)
            & (self.p <= MOST_PAGE_BYTES)
            & (self.s < LETTERS as usize)
    }

    // How many originals there are, which is the length of the list and of the set bytes.
    pub fn original_count(self) -> usize
        requires { (self.n ≤ 64) × (self.m ≤ 64) }
        ensures { result ≡ original_count self }
    {
        self.n * self.m
    }

    // How many slots there are, which is the length of the marks.
    pub fn slot_count(self) -> usize
        requires { (self.n ≤ 64) × (self.m ≤ 64) }
        ensures { result ≡ slot_count self }
    {
        (self.n + 1) * self.m
    }

    // The length of the store.
    pub fn store_length(self) -> usize
        requires { (self.n ≤ 64) × (self.m ≤ 64) × (self.p ≤ 4096) }
        ensures { result ≡ store_len self }
    {
        self.slot_count() * self.p
    }

    // The letter that comes `i` after the start letter.
    pub fn letter_after(self, i: usize) -> u8
        requires { (self.s < 3) × (i < 3) }
        ensures { result ≡ letter self i }
    {
        ((self.s + i) % LETTERS as usize) as u8
    }
}
