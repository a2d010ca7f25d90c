// The walks of read's rules 2 and 3 along the rows of a set. A walk gathers slots; no byte and no mark is looked at.
ghost use Rattle.std.specs.Prelude.{◌≡◌, List, ℕ, ◌*◌, ◌≤◌, ◌<◌, length, take};
ghost use Rattle.split.specs.Split.{set_of};
ghost use Rattle.method.specs.Move.{Move, AcceptedMove};
ghost use Rattle.method.specs.Cycle.{top};
ghost use Rattle.method.specs.inner.MoveIn.{move_in};
ghost use Rattle.method.specs.Read.{read_slots};
ghost use Rattle.walk.specs.inner.Moments.{Tells};
ghost use Rattle.walk.specs.inner.Rows.{PagesIn, BlocksIn, ListIn, SourcesRow};
ghost use Rattle.walk.specs.inner.Slots.{slots_length, StartsWith, back_by, on_by, forward_by, backward_by};

use crate::moment::Moment;
use crate::rows::{ROW, set_rows};
use crate::set::Rows;
use flash::quotient::Divisor;
use flash::sizes::Sizes;
use method::accepted::Accepted;

// A walk meets each block of its cycle once at most, and a write has a page more.
pub const SLOTS: usize = 65;

// The top of block v's cycle: the highest block that is met on the way back to v.
pub fn top_of(n: usize, sources: &[u8], v: usize) -> usize
    requires { BlocksIn n sources.now × (n ≤ 64) × (1 ≤ v) × (v ≤ n) }
    ensures { (M : Move) (set : ℕ) → AcceptedMove M → set < M.sizes.m → M.sizes.n ≡ n → SourcesRow M set sources.now
        → result ≡ top M set v }
{
    let mut top = v;
    let mut u = v;
    for _turn in 0..n {
        u = usize::from(sources[u - 1]);
        if u == v {
            return top;
        }
        top = top.max(u);
    }
    top
}

// Back from block `start` of a set, over coded pages: until that of `stop` is taken, or until the next block is one from `plain` on,
// whose plain page is the last. Answers how many slots there are.
pub fn go_back(
    sizes: Sizes,
    set: usize,
    pages: &[u8],
    sources: &[u8],
    plain: usize,
    stop: usize,
    start: usize,
    slots: &mut [usize; SLOTS],
) -> usize
    requires pages_in { PagesIn sizes.n sizes.m pages.now × BlocksIn sizes.n sources.now × (1 ≤ start) × (start ≤ sizes.n) }
    requires n_bound { (sizes.n ≤ 64) × (sizes.m ≤ 64) × (set < sizes.m) × (length slots.old ≡ slots_length) }
    ensures { StartsWith slots.old 0
        (back_by sizes.m set pages.now sources.now plain stop sizes.n start) slots.new result }
{
    let m = sizes.m;
    let n = sizes.n;
    let mut v = start;
    for count in 0..n {
        slots[count] = (v - 1) * m + set;
        if v == stop {
            return count + 1;
        }
        v = usize::from(sources[v - 1]);
        if plain <= v {
            slots[count + 1] = v * m + usize::from(pages[v - 1]);
            return count + 2;
        }
    }
    n
}

// On from block `start` of a set, over coded pages: until the next block is one from `done` on, whose page there is the last, or is
// `stop`. Answers how many slots there are. Apart from `go_back`: the passes are two rules, which go opposite ways and end differently.
pub fn go_on(
    sizes: Sizes,
    divisor: Divisor,
    list: &[u16],
    set: usize,
    pages: &[u8],
    done: usize,
    stop: usize,
    start: usize,
    slots: &mut [usize; SLOTS],
) -> usize
    requires pages_in { PagesIn sizes.n sizes.m pages.now × ListIn sizes.n sizes.m list.now × (1 ≤ start) × (start ≤ sizes.n)
        × (divisor.by ≡ sizes.m) }
    requires n_bound { (sizes.n ≤ 64) × (sizes.m ≤ 64) × (set < sizes.m) × (length slots.old ≡ slots_length) }
    ensures { StartsWith slots.old 0
        (on_by sizes.m list.now set pages.now done stop sizes.n start) slots.new result }
{
    let m = sizes.m;
    let n = sizes.n;
    let mut v = start;
    for count in 0..n {
        let first = (v - 1) * m;
        slots[count] = first + set;
        let to = usize::from(list[first + usize::from(pages[v - 1])]);
        v = divisor.quotient(to) + 1;
        if done <= v {
            slots[count + 1] = to + m;
            return count + 2;
        }
        if v == stop {
            return count + 1;
        }
    }
    n
}

// The slots of a write in the forward pass, of c(i): D(i) in place of the coded page of i, and the way back, which ends at the
// first block that is not below i: at i itself where i is the top, whose coded page is D(i) alone.
pub fn forward_slots(
    sizes: Sizes,
    set: usize,
    pages: &[u8],
    sources: &[u8],
    i: usize,
    slots: &mut [usize; SLOTS],
) -> usize
    requires pages_in { PagesIn sizes.n sizes.m pages.now × BlocksIn sizes.n sources.now × (1 ≤ i) × (i ≤ sizes.n) }
    requires n_bound { (sizes.n ≤ 64) × (sizes.m ≤ 64) × (set < sizes.m) × (length slots.old ≡ slots_length) }
    ensures { (take result slots.new ≡ forward_by sizes.m set pages.now sources.now sizes.n i)
        × (1 ≤ result) × (result ≤ slots_length) × (length slots.new ≡ slots_length) }
{
    let own = i * sizes.m + usize::from(pages[i - 1]);
    let count = go_back(sizes, set, pages, sources, i, 0, i, slots);
    slots[0] = own;
    if slots[count - 1] == own {
        return 1;
    }
    count
}

// The slots of a write in the backward pass, to block b: c(b) and on, until b comes again.
pub fn backward_slots(
    sizes: Sizes,
    divisor: Divisor,
    list: &[u16],
    set: usize,
    pages: &[u8],
    b: usize,
    slots: &mut [usize; SLOTS],
) -> usize
    requires pages_in { PagesIn sizes.n sizes.m pages.now × ListIn sizes.n sizes.m list.now × (1 ≤ b) × (b ≤ sizes.n)
        × (divisor.by ≡ sizes.m) }
    requires n_bound { (sizes.n ≤ 64) × (sizes.m ≤ 64) × (set < sizes.m) × (length slots.old ≡ slots_length) }
    ensures { (take result slots.new ≡ backward_by sizes.m list.now set pages.now sizes.n b)
        × (1 ≤ result) × (result ≤ slots_length) × (length slots.new ≡ slots_length) }
{
    go_on(sizes, divisor, list, set, pages, b + 1, b, b, slots)
}

// The slots of original k at a moment, along the rows of its set: the walk of section 6 starts at the block that k came from.
pub fn row_slots(rows: Rows, moment: Moment, k: usize, slots: &mut [usize; SLOTS]) -> usize
    requires { (k < rows.moved.sizes.n * rows.moved.sizes.m) × (length slots.old ≡ slots_length) × (rows.set ≡ set_of rows.moved.sets.now k) }
    ensures { (marks : List ℕ) → Tells (move_in rows.entry.moved) marks moment
        → StartsWith slots.old 1 (read_slots (move_in rows.entry.moved) marks k) slots.new result }
{
    let sizes = rows.moved.sizes;
    let list = rows.moved.list;
    let m = sizes.m;
    let plain = moment.plain;
    let done = moment.done;
    let v = k / m + 1;
    if plain <= v {
        slots[0] = k + m;
        return 1;
    }
    let to = usize::from(list[k]);
    let w = to / m + 1;
    if done <= w {
        slots[0] = to + m;
        return 1;
    }
    let top = top_of(sizes.n, rows.sources, v);
    if (top - 1 < moment.coded) | (plain <= sizes.n) {
        go_back(
            sizes,
            rows.set,
            rows.pages,
            rows.sources,
            plain,
            top,
            v,
            slots,
        )
    } else {
        go_on(
            sizes,
            Divisor::new(m),
            list,
            rows.set,
            rows.pages,
            done,
            0,
            w,
            slots,
        )
    }
}

// The same, with rows that are filled for it.
pub fn read_slots(moved: Accepted, moment: Moment, k: usize, slots: &mut [usize; SLOTS]) -> usize
    requires { (k < moved.sizes.n * moved.sizes.m) × (length slots.old ≡ slots_length) }
    ensures { (marks : List ℕ) → Tells (move_in moved.entry) marks moment
        → StartsWith slots.old 1 (read_slots (move_in moved.entry) marks k) slots.new result }
{
    let set = usize::from(moved.sets[k]);
    let mut pages = [0u8; ROW];
    let mut sources = [0u8; ROW];
    set_rows(moved, set, &mut pages, &mut sources);
    let rows = Rows {
        moved,
        set,
        pages: &pages,
        sources: &sources,
    };
    row_slots(rows, moment, k, slots)
}
