// The terms of a sum where pages may be dropped. A walk gathers the same slots as it does without: of the slots of one original only the
// last can still hold an original of its own, which counts as 255s where it is dropped.
ghost use Rattle.std.specs.Prelude.{◌≡◌, ◌≢◌, cond, List, ℕ, ◌+◌, ◌-◌, ◌*◌, ◌≤◌, ◌<◌, length, get_or};
ghost use Rattle.flash.specs.Geometry.{number_at, slot_count};
ghost use Rattle.split.specs.Split.{set_of};
ghost use Rattle.split.specs.inner.Mask.{is_marked};
ghost use Rattle.method.specs.Move.{move_of, AcceptedMove};
ghost use Rattle.method.specs.Cycle.{sent_to};
ghost use Rattle.method.specs.Place.{forward, backward};
ghost use Rattle.method.specs.Read.{read_terms};
ghost use Rattle.method.specs.Step.{write_terms};
ghost use Rattle.method.specs.inner.Shape.{Shape};
ghost use Rattle.walk.specs.inner.Moments.{HasMoment};
ghost use Rattle.walk.specs.inner.Rows.{PagesIn, BlocksIn, ListIn, PagesRow, SourcesRow};
ghost use Rattle.walk.specs.inner.Slots.{slots_length};
ghost use Rattle.walk.specs.inner.Terms.{plan_by, AddsUp, only_filler, drops_plain, last_left, rest_left, first_out, first_left};

use crate::moment::Moment;
use crate::walk::{SLOTS, backward_slots, forward_slots, read_slots};
use flash::quotient::Divisor;
use flash::sizes::Sizes;
use method::accepted::Accepted;
use split::drops::is_marked;

// The pages of the first `count` slots of an array, and a page of 255s where `filler` says so. Two of these cancel.
#[derive(Clone, Copy)]
pub struct Addends {
    pub count: usize,
    pub filler: bool,
}

// A page that is dropped: no slot.
fn only_filler() -> Addends
    ensures { result ≡ only_filler }
{
    Addends {
        count: 0,
        filler: true,
    }
}

// Whether a slot from block `plain` on holds a page that is dropped.
fn drops_plain(m: usize, plain: usize, drops: &[u64], slot: usize) -> bool
    requires { (1 ≤ plain) × (plain ≤ 65) × (m ≤ 64) × (slot < 4096 + m) × (length drops.now ≡ 64) }
    ensures { result ≡ drops_plain m plain drops.now slot }
{
    if slot < plain * m {
        return false;
    }
    is_marked(drops, slot - m)
}

// What is left of the slots of one original.
fn last_left(m: usize, plain: usize, drops: &[u64], slots: &[usize], count: usize) -> Addends
    requires le_plain { (1 ≤ plain) × (plain ≤ 65) × (m ≤ 64) × (length drops.now ≡ 64) }
    requires le_count { (1 ≤ count) × (count ≤ length slots.now) × (get_or slots.now (count - 1) 0 < 4096 + m) }
    ensures { result ≡ last_left m plain drops.now slots.now count }
{
    let before = count - 1;
    if drops_plain(m, plain, drops, slots[before]) {
        return Addends {
            count: before,
            filler: true,
        };
    }
    Addends {
        count,
        filler: false,
    }
}

// What is left of the slots of page `number`, which stand behind the first.
fn rest_left(
    m: usize,
    plain: usize,
    drops: &[u64],
    number: usize,
    slots: &[usize],
    count: usize,
) -> Addends
    requires le_plain { (1 ≤ plain) × (plain ≤ 65) × (m ≤ 64) × (number < 4096) × (length drops.now ≡ 64) }
    requires le_count { (1 ≤ count) × (count ≤ length slots.now) × (get_or slots.now (count - 1) 0 < 4096 + m) }
    ensures { result ≡ rest_left m plain drops.now number slots.now count }
{
    if count < 2 {
        return Addends {
            count,
            filler: false,
        };
    }
    if is_marked(drops, number) {
        return Addends {
            count: 1,
            filler: true,
        };
    }
    last_left(m, plain, drops, slots, count)
}

// And whether the first is left: if not, the last takes its place.
fn first_left(
    m: usize,
    plain: usize,
    drops: &[u64],
    slots: &mut [usize; SLOTS],
    left: Addends,
) -> Addends
    requires le_plain { (1 ≤ plain) × (plain ≤ 65) × (m ≤ 64) × (length drops.now ≡ 64) × (get_or slots.old 0 0 < 4096 + m) }
    requires le_count { (1 ≤ left.count) × (left.count ≤ slots_length) × (length slots.old ≡ slots_length) }
    ensures { let is_out = drops_plain m plain drops.now (get_or slots.old 0 0) in
        (result ≡ first_left is_out left) × (slots.new ≡ cond is_out (first_out slots.old left.count) slots.old) }
{
    if drops_plain(m, plain, drops, slots[0]) {
        let count = left.count - 1;
        slots[0] = slots[count];
        return Addends {
            count,
            filler: !left.filler,
        };
    }
    left
}

// The terms of original k at a moment. There are marks that have the moment.
pub fn read_terms(
    moved: Accepted,
    drops: &[u64],
    moment: Moment,
    k: usize,
    slots: &mut [usize; SLOTS],
) -> Addends
    requires { (k < moved.sizes.n * moved.sizes.m) × (length drops.now ≡ 64) × (length slots.old ≡ slots_length)
        × ((marks : List ℕ) × HasMoment moved.sizes marks moment) }
    ensures count_le_slots_length { (result.count ≤ slots_length) × (length slots.new ≡ slots_length)
        × ((j : ℕ) → j < result.count → get_or slots.new j 0 < slot_count moved.entry.sizes) }
    ensures by_index { let M = moved.entry in (marks : List ℕ) → HasMoment M.sizes marks moment
        → AddsUp M.sizes (read_terms (plan_by M.sizes M.list.now M.sets.now drops.now) marks k) slots.new result }
{
    if is_marked(drops, k) {
        return only_filler();
    }
    let count = read_slots(moved, moment, k, slots);
    last_left(moved.sizes.m, moment.plain, drops, slots, count)
}

// The terms of a write in the forward pass to a block, of c(i) for the block i above it: D(i), and D(pred(i)) where i is not the top.
pub fn forward_terms(
    sizes: Sizes,
    set: usize,
    pages: &[u8],
    sources: &[u8],
    drops: &[u64],
    block: usize,
    slots: &mut [usize; SLOTS],
) -> Addends
    requires pages_in { PagesIn sizes.n sizes.m pages.now × BlocksIn sizes.n sources.now × (block < sizes.n) × (length drops.now ≡ 64) }
    requires n_bound { (sizes.n ≤ 64) × (sizes.m ≤ 64) × (set < sizes.m) × (length slots.old ≡ slots_length) }
    ensures count_le_slots_length { (result.count ≤ slots_length) × (length slots.new ≡ slots_length)
        × ((j : ℕ) → j < result.count → (get_or slots.new j 0 < slot_count sizes) × (get_or slots.new j 0 ≢ block * sizes.m + set)) }
    ensures by_index { (list sets marks : List ℕ) → AcceptedMove (move_of sizes list sets) → PagesRow (move_of sizes list sets) set pages.now
        → SourcesRow (move_of sizes list sets) set sources.now → Shape sizes marks block (block + 1) 0
        → AddsUp sizes (write_terms (plan_by sizes list sets drops.now) forward block set marks) slots.new result }
{
    let m = sizes.m;
    let i = block + 1;
    let count = forward_slots(sizes, set, pages, sources, i, slots);
    let u = usize::from(sources[block]) - 1;
    let left = rest_left(m, i, drops, u * m + usize::from(pages[u]), slots, count);
    first_left(m, i, drops, slots, left)
}

// The terms of a write in the backward pass, to a page of a block. No block holds its originals any more, so all slots are left where the
// page that goes there is not dropped.
pub fn backward_terms(
    sizes: Sizes,
    divisor: Divisor,
    list: &[u16],
    set: usize,
    pages: &[u8],
    places: &[u64],
    block: usize,
    page: usize,
    slots: &mut [usize; SLOTS],
) -> Addends
    requires pages_in { PagesIn sizes.n sizes.m pages.now × ListIn sizes.n sizes.m list.now × (1 ≤ block) × (block ≤ sizes.n)
        × (page < sizes.m) × (divisor.by ≡ sizes.m) × (length places.now ≡ 64) }
    requires n_bound { (sizes.n ≤ 64) × (sizes.m ≤ 64) × (set < sizes.m) × (length slots.old ≡ slots_length) }
    ensures count_le_slots_length { (result.count ≤ slots_length) × (length slots.new ≡ slots_length)
        × ((j : ℕ) → j < result.count → (get_or slots.new j 0 < slot_count sizes) × (get_or slots.new j 0 ≢ block * sizes.m + page)) }
    ensures by_index { (sets drops marks : List ℕ) → AcceptedMove (move_of sizes list.now sets)
        → (let number = number_at sizes.m block page in let from = sent_to (move_of sizes list.now sets) number in
        (set ≡ set_of sets from) × (is_marked places.now number ≡ is_marked drops from))
        → PagesRow (move_of sizes list.now sets) set pages.now → Shape sizes marks block (block + 1) 2
        → AddsUp sizes (write_terms (plan_by sizes list.now sets drops) backward block page marks) slots.new result }
{
    let number = (block - 1) * sizes.m + page;
    if is_marked(places, number) {
        return only_filler();
    }
    let count = backward_slots(sizes, divisor, list, set, pages, block, slots);
    Addends {
        count,
        filler: false,
    }
}
