// What a block is full of at a moment of the move, told by where it stands.
ghost use Rattle.std.specs.Prelude.{◌≡◌, ◌≤◌};
ghost use Rattle.walk.specs.inner.Moments.{moment_in};

// Blocks below `coded` are full of s + 1, blocks from `plain` on full of s, and blocks from `done` on full of s + 2. Where no
// block is, the number is n + 1.
#[derive(Clone, Copy)]
pub struct Moment {
    pub coded: usize,
    pub plain: usize,
    pub done: usize,
}

// The moment of a pass. Blocks below `low` are full of s + 1, and from `high` on of what the pass has above the block that it fills.
pub fn moment_in(backward: bool, n: usize, low: usize, high: usize) -> Moment
    requires { n ≤ 64 }
    ensures { result ≡ moment_in backward n low high }
{
    let none = n + 1;
    if backward {
        return Moment {
            coded: low,
            plain: none,
            done: high,
        };
    }
    Moment {
        coded: low,
        plain: high,
        done: none,
    }
}
