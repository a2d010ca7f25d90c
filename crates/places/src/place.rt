// A place in the move: a step number, and what a step needs to know of it, so that only the first place of a run is divided.

ghost use Rattle.std.specs.Prelude.{◌≡◌, ◌+◌, ◌≤◌, ◌<◌};
ghost use Rattle.flash.specs.Geometry.{Bounds};
ghost use Rattle.method.specs.Place.{erase, operation_at, last_place};
ghost use Rattle.places.specs.inner.Place.{place_of, op_of};

use flash::sizes::Sizes;

// What is to be done at a place.
#[derive(Clone, Copy)]
pub enum Op {
    // A page is written with its mark: a coded page in the forward pass, an original in the backward pass.
    Write {
        backward: bool,
        block: usize,
        page: usize,
        mark: u8,
    },
    Erase {
        block: usize,
    },
    Done,
}

// The step number, the pass, the block that is being filled, and how many of its pages are written.
#[derive(Clone, Copy)]
pub struct Place {
    pub at: usize,
    pub backward: bool,
    pub block: usize,
    pub page: usize,
}

impl Place {
    // A turn fills one block: its writes, and an erase. There are n turns forward and n backward.
    pub fn new(sizes: Sizes, at: usize) -> Place
        requires { Bounds sizes × (at ≤ last_place sizes) }
        ensures { result ≡ place_of sizes at }
    {
        let n = sizes.n;
        let steps = sizes.m + 1;
        let turn = at / steps;
        let page = at % steps;
        let backward = n <= turn;
        let block = if backward { 2 * n - turn } else { turn };
        Place {
            at,
            backward,
            block,
            page,
        }
    }

    // The block that is erased once all pages of this one are written.
    pub fn freed(self, sizes: Sizes) -> usize
        requires { (self ≡ place_of sizes self.at) × (self.at < last_place sizes) × (self.page ≡ sizes.m) }
        ensures { operation_at sizes self.at ≡ erase result }
    {
        if self.backward {
            self.block - 1
        } else {
            self.block + 1
        }
    }

    pub fn operation(self, sizes: Sizes) -> Op
        requires { Bounds sizes × (self ≡ place_of sizes self.at) }
        ensures { result ≡ op_of sizes (operation_at sizes self.at) }
    {
        let backward = self.backward;
        let block = self.block;
        let page = self.page;
        // the backward pass ends when block 0 is free
        if backward & (block == 0) {
            return Op::Done;
        }
        if page < sizes.m {
            let pass = if backward { 2 } else { 1 };
            return Op::Write {
                backward,
                block,
                page,
                mark: sizes.letter_after(pass),
            };
        }
        Op::Erase {
            block: self.freed(sizes),
        }
    }

    // The place that the step leads to: a page on, or the start of the next turn. The forward pass ends when block n is free.
    pub fn next(mut self, sizes: Sizes) -> Place
        requires { Bounds sizes × (self ≡ place_of sizes self.at) × (self.at < last_place sizes) }
        ensures { result ≡ place_of sizes (self.at + 1) }
    {
        self.at += 1;
        if self.page < sizes.m {
            self.page += 1;
            return self;
        }
        self.page = 0;
        if self.backward {
            self.block -= 1;
            return self;
        }
        self.block += 1;
        self.backward = self.block == sizes.n;
        self
    }
}

// The place after the last step.
pub fn last_place(sizes: Sizes) -> usize
    requires { (sizes.n ≤ 64) × (sizes.m ≤ 64) }
    ensures { result ≡ last_place sizes }
{
    2 * sizes.n * (sizes.m + 1)
}
