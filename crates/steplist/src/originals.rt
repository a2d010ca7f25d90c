// The originals that the page of a write is the sum of.
ghost use Rattle.std.specs.Prelude.{◌≡◌, true, false, [], ◌∷◌, ℕ, ◌+◌, ◌*◌, ◌≤◌, ◌<◌, eqb, length, get_or};
ghost use Rattle.flash.specs.Lists.{range, first};
ghost use Rattle.method.specs.inner.MoveIn.{move_in};
ghost use Rattle.method.specs.Cycle.{coded};
ghost use Rattle.method.specs.Step.{originals_of};
ghost use Rattle.places.specs.inner.Place.{pass_of};
ghost use Rattle.checker.specs.Method.{ascending};
ghost use Rattle.steplist.specs.inner.Originals.{originals_as, Within};

use method::accepted::Accepted;
use walk::rows::{ROW, set_rows};
use walk::walk::top_of;

// One original, or two in rising order.
#[derive(Clone, Copy)]
pub enum Originals {
    One { original: usize },
    Two { low: usize, high: usize },
}

fn in_order(one: usize, other: usize) -> Originals
    ensures result_value { originals_as result ≡ ascending (one ∷ other ∷ []) }
    ensures by_index { (count : ℕ) → one < count → other < count → Within count result }
{
    if one < other {
        Originals::Two {
            low: one,
            high: other,
        }
    } else {
        Originals::Two {
            low: other,
            high: one,
        }
    }
}

// Those of c(i): D(i), and D(pred(i)) where i is not the top.
fn coded_originals(moved: Accepted, set: usize, i: usize) -> Originals
    requires { (set < moved.sizes.m) × (1 ≤ i) × (i ≤ moved.sizes.n) }
    ensures { (originals_as result ≡ ascending (coded (move_in moved.entry) set i))
        × Within (moved.entry.sizes.n * moved.entry.sizes.m) result }
{
    let m = moved.sizes.m;
    let mut pages = [0u8; ROW];
    let mut sources = [0u8; ROW];
    set_rows(moved, set, &mut pages, &mut sources);
    let own = (i - 1) * m + usize::from(pages[i - 1]);
    if top_of(moved.sizes.n, &sources, i) == i {
        return Originals::One { original: own };
    }
    let u = usize::from(sources[i - 1]);
    in_order(own, (u - 1) * m + usize::from(pages[u - 1]))
}

// The original that the list sends to a page number.
fn sent_to(list: &[u16], number: usize) -> usize
    ensures { result ≡ first (λ k. eqb (get_or list.now k 0) number) (range 0 (length list.now)) 0 }
{
    list.iter()
        .position(|entry| usize::from(*entry) == number)
        .unwrap_or(0)
}

// The originals of a write to a page of a block.
pub fn originals_of(moved: Accepted, backward: bool, block: usize, page: usize) -> Originals
    requires { (page < moved.sizes.m) × (block ≤ moved.sizes.n) × (backward ≡ true → 1 ≤ block)
        × (backward ≡ false → block + 1 ≤ moved.sizes.n) }
    ensures { (originals_as result ≡ ascending (originals_of (move_in moved.entry) (pass_of backward) block page))
        × Within (moved.entry.sizes.n * moved.entry.sizes.m) result }
{
    if backward {
        return Originals::One {
            original: sent_to(moved.list, (block - 1) * moved.sizes.m + page),
        };
    }
    coded_originals(moved, page, block + 1)
}
