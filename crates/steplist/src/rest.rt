// The store at rest that the program moves.
ghost use Rattle.std.specs.Prelude.{true, ◌≡◌, ◌++◌, ◌+◌, ◌-◌, ◌≤◌, leb, length, replicate};
ghost use Rattle.flash.specs.Lists.{all};

use flash::ERASED;
use listing::fit::put;

// The pages of the spare become blank, and the originals' bytes follow.
pub fn put_store(originals: &[u32], spare: usize, store: &mut [u8])
    requires store_len { length store.old ≡ spare + length originals.now }
    requires originals_value { all (λ number. leb number 255) originals.now ≡ true }
    ensures { store.new ≡ replicate spare 255 ++ originals.now }
{
    put(originals, &mut store[spare..]);
    store[..spare].fill(ERASED);
}

// The marks of the spare's pages become 255, those of the others the letter s.
pub fn put_marks(m: usize, s: u8, marks: &mut [u8])
    requires { m ≤ length marks.old }
    ensures { marks.new ≡ replicate m 255 ++ replicate (length marks.old - m) s }
{
    marks.fill(s);
    marks[..m].fill(ERASED);
}
