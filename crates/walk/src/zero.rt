// Where a block was just filled: the slot of a set's page in it, and those that were summed to write it. Together their pages sum to zeros.
ghost use Rattle.std.specs.Prelude.{◌≡◌, true, false, cond, List, [], ◌∷◌, ℕ, ◌+◌, ◌-◌, ◌*◌, ◌≤◌, ◌<◌, length, take};
ghost use Rattle.method.specs.Cycle.{D, pred, is_top};
ghost use Rattle.method.specs.Place.{forward, backward};
ghost use Rattle.method.specs.Read.{read_slots};
ghost use Rattle.method.specs.Rebuild.{apart, zero_slots};
ghost use Rattle.method.specs.inner.MoveIn.{move_in};
ghost use Rattle.walk.specs.inner.Moments.{Tells, moment_in};
ghost use Rattle.walk.specs.inner.Slots.{slots_length, zero_length, StartsWith};

use crate::apart::apart_slots;
use crate::moment::{Moment, moment_in};
use crate::set::Rows;
use crate::walk::{SLOTS, row_slots, top_of};

// The slots of one original, and two more.
pub const ZERO: usize = 66;

// A slot and a list of slots, but not where both have it.
fn with_slot(slot: usize, slots: &[usize], to: &mut [usize]) -> usize
    requires { 1 + length slots.now ≤ length to.old }
    ensures { (take result to.new ≡ apart (slot ∷ []) slots.now) × (result ≤ 1 + length slots.now) }
{
    apart_slots(&[slot], slots, to)
}

// The slots of D(pred(block)) at a moment.
fn source_slots(rows: Rows, moment: Moment, block: usize, slots: &mut [usize; SLOTS]) -> usize
    requires { (1 ≤ block) × (block ≤ rows.moved.sizes.n) × (length slots.old ≡ slots_length) }
    ensures { let M = move_in rows.entry.moved in (begun : List ℕ) → Tells M begun moment
        → StartsWith slots.old 1 (read_slots M begun (D M rows.entry.set (pred M rows.entry.set block))) slots.new result }
{
    let u = usize::from(rows.sources[block - 1]) - 1;
    let k = u * rows.moved.sizes.m + usize::from(rows.pages[u]);
    row_slots(rows, moment, k, slots)
}

// The slots of D(pred(i)) at the moment before the block below i is written; none where i is the top.
fn forward_rest(rows: Rows, i: usize, slots: &mut [usize; SLOTS]) -> usize
    requires { (1 ≤ i) × (i ≤ rows.moved.sizes.n) × (length slots.old ≡ slots_length) }
    ensures result_bound { (result + 1 ≤ slots_length) × (length slots.new ≡ slots_length) }
    ensures by_index { let M = move_in rows.entry.moved in (begun : List ℕ) → Tells M begun (moment_in false M.sizes.n (i - 1) i)
        → take result slots.new ≡ cond (is_top M rows.entry.set i) [] (read_slots M begun (D M rows.entry.set (pred M rows.entry.set i))) }
{
    let n = rows.moved.sizes.n;
    if top_of(n, rows.sources, i) == i {
        return 0;
    }
    let moment = moment_in(false, n, i - 1, i);
    source_slots(rows, moment, i, slots)
}

// When the forward pass has written the block below i.
pub fn forward_zero(rows: Rows, i: usize, zero: &mut [usize; ZERO]) -> usize
    requires { (1 ≤ i) × (i ≤ rows.moved.sizes.n) × (length zero.old ≡ zero_length) }
    ensures { let M = move_in rows.entry.moved in (result ≤ zero_length) × (length zero.new ≡ zero_length) × ((begun : List ℕ)
        → Tells M begun (moment_in false M.sizes.n (i - 1) i)
        → take result zero.new ≡ zero_slots M begun forward (i - 1) rows.entry.set) }
{
    let m = rows.moved.sizes.m;
    let mut slots = [0usize; SLOTS];
    let count = forward_rest(rows, i, &mut slots);
    let own = i * m + usize::from(rows.pages[i - 1]);
    let mut rest = [0usize; ZERO];
    let more = with_slot(own, &slots[..count], &mut rest);
    with_slot((i - 1) * m + rows.set, &rest[..more], zero)
}

// When the backward pass has written block b. Apart from `forward_zero`: each pass sums other slots to write its page.
pub fn backward_zero(rows: Rows, b: usize, zero: &mut [usize; ZERO]) -> usize
    requires { (1 ≤ b) × (b ≤ rows.moved.sizes.n) × (length zero.old ≡ zero_length) }
    ensures { let M = move_in rows.entry.moved in (result ≤ zero_length) × (length zero.new ≡ zero_length) × ((begun : List ℕ)
        → Tells M begun (moment_in true M.sizes.n b (b + 1))
        → take result zero.new ≡ zero_slots M begun backward b rows.entry.set) }
{
    let sizes = rows.moved.sizes;
    let list = rows.moved.list;
    let mut slots = [0usize; SLOTS];
    let moment = moment_in(true, sizes.n, b, b + 1);
    let count = source_slots(rows, moment, b, &mut slots);
    let u = usize::from(rows.sources[b - 1]) - 1;
    let to = usize::from(list[u * sizes.m + usize::from(rows.pages[u])]) + sizes.m;
    with_slot(to, &slots[..count], zero)
}
