// Rebuild: all originals that can be had without the page of one slot, and which of them cannot.
ghost use Rattle.std.specs.Prelude.{◌≡◌, List, map, ℕ, ◌+◌, ◌*◌, ◌≤◌, ◌<◌, length, take, replicate};
ghost use Rattle.flash.specs.Refusals.{number_in};
ghost use Rattle.flash.specs.Lists.{range, concat_map};
ghost use Rattle.flash.specs.Geometry.{original_count, store_len};
ghost use Rattle.split.specs.Request.{request_of};
ghost use Rattle.split.specs.Split.{set_of};
ghost use Rattle.method.specs.inner.MoveIn.{move_in};
ghost use Rattle.method.specs.Mend.{Reading, seen};
ghost use Rattle.method.specs.Read.{read_slots};
ghost use Rattle.method.specs.Rebuild.{rebuilt_from, rebuilt_page, rebuilt_flag, area_length, flags_length, rebuild_answer};
ghost use Rattle.walk.specs.inner.Rows.{PagesTable, SourcesTable};
ghost use Rattle.walk.specs.inner.Slots.{zero_length};
ghost use Rattle.mover.specs.inner.Rebuild.{zero_here, IsCoded, Sees, Seen, Others};

use crate::rebuild_refusals::rebuild_refusal;
use flash::refusal::Refusal;
use flash::sizes::Sizes;
use flash::slots::sum_to_page;
use method::accepted::Accepted;
use recovery::marks::{MarksRead, read_marks};
use walk::apart::{apart_slots, has_slot};
use walk::moment::{Moment, moment_in};
use walk::rows::{TABLE, pages_table, row, sources_table};
use walk::set::Rows;
use walk::walk::{SLOTS, row_slots};
use walk::zero::{ZERO, backward_zero, forward_zero};

// The pass, and the first block above those that are coded.
#[derive(Clone, Copy)]
pub struct Coded {
    pub backward: bool,
    pub change: usize,
}

// What the marks tell: the moment; and, where no block is torn, how far the pass has come.
#[derive(Clone, Copy)]
pub struct Told {
    pub moment: Moment,
    pub coded: Option<Coded>,
}

// The slots of an original and of a zero sum, together.
const OTHER: usize = 130;

// An original that is lost.
fn lose(page: &mut [u8]) -> u8
    ensures { (result ≡ 0) × (page.new ≡ replicate (length page.old) 255) }
{
    page.fill(255);
    0
}

// Where no block is torn: the zero sum of a set.
fn zero_slots(rows: Rows, coded: Coded, zero: &mut [usize; ZERO]) -> usize
    requires { (1 ≤ coded.change) × (coded.change ≤ rows.moved.sizes.n) × (length zero.old ≡ zero_length) }
    ensures { let M = move_in rows.entry.moved in (result ≤ zero_length) × (length zero.new ≡ zero_length)
        × ((marks : List ℕ) (found : Reading) (k : ℕ) → k < M.sizes.n * M.sizes.m → rows.entry.set ≡ set_of M.sets k
        → IsCoded M.sizes marks found coded
        → take result zero.new ≡ zero_here M found k) }
{
    if coded.backward {
        return backward_zero(rows, coded.change, zero);
    }
    forward_zero(rows, coded.change, zero)
}

// Read's sum has the slot: the other sum, if there is one without it.
fn rebuild_other(
    rows: Rows,
    store: &[u8],
    coded: Coded,
    slot: usize,
    k: usize,
    own: &[usize],
    page: &mut [u8],
) -> u8
    requires { (k < rows.moved.sizes.n * rows.moved.sizes.m) × (rows.set ≡ set_of rows.moved.sets.now k)
        × (length store.now ≡ store_len rows.moved.sizes) × (length page.old ≡ rows.moved.sizes.p) × (length own.now ≤ 64)
        × Others (move_in rows.moved) coded slot k own.now }
    ensures { let M = move_in rows.entry.moved in (marks : List ℕ) (found : Reading) → IsCoded M.sizes marks found coded
        → own.now ≡ read_slots M marks k
        → (let from = rebuilt_from M (seen marks) found slot k in
        (result ≡ rebuilt_flag from) × (page.new ≡ rebuilt_page M.sizes.p (record { store = store.entry.now; marks = marks }) from)) }
{
    let mut zero = [0usize; ZERO];
    let found = zero_slots(rows, coded, &mut zero);
    if !has_slot(&zero[..found], slot) {
        return lose(page);
    }
    let mut other = [0usize; OTHER];
    let all = apart_slots(own, &zero[..found], &mut other);
    sum_to_page(store, rows.moved.sizes.p, &other[..all], page);
    1
}

// One original: its page and its flag.
fn rebuild_page(rows: Rows, store: &[u8], told: Told, slot: usize, k: usize, page: &mut [u8]) -> u8
    requires { (k < rows.moved.sizes.n * rows.moved.sizes.m) × (rows.set ≡ set_of rows.moved.sets.now k)
        × (length store.now ≡ store_len rows.moved.sizes) × (length page.old ≡ rows.moved.sizes.p) × Seen (move_in rows.moved) told }
    ensures { let M = move_in rows.entry.moved in (marks : List ℕ) (found : Reading) → Sees M marks found told
        → (let from = rebuilt_from M (seen marks) found slot k in
        (result ≡ rebuilt_flag from) × (page.new ≡ rebuilt_page M.sizes.p (record { store = store.entry.now; marks = marks }) from)) }
{
    let mut slots = [0usize; SLOTS];
    let count = row_slots(rows, told.moment, k, &mut slots);
    let own = &slots[..count];
    if has_slot(own, slot) {
        let Some(coded) = told.coded else {
            return lose(page);
        };
        return rebuild_other(rows, store, coded, slot, k, own, page);
    }
    sum_to_page(store, rows.moved.sizes.p, own, page);
    1
}

// All originals, one after the other, with the tables of all sets.
fn rebuild_pages(
    moved: Accepted,
    pages: &[u8],
    sources: &[u8],
    store: &[u8],
    told: Told,
    slot: usize,
    area: &mut [u8],
    flags: &mut [u8],
)
    requires { (length store.now ≡ store_len moved.sizes) × (length area.old ≡ area_length moved.sizes)
        × (length flags.old ≡ flags_length moved.sizes) × Seen (move_in moved) told × PagesTable (move_in moved) pages.now × SourcesTable (move_in moved) sources.now }
    ensures { let M = move_in moved.entry in (marks : List ℕ) (found : Reading) → Sees M marks found told
        → (area.new ≡ concat_map (λ k. rebuilt_page M.sizes.p (record { store = store.entry.now; marks = marks })
        (rebuilt_from M (seen marks) found slot k)) (range 0 (original_count M.sizes)))
        × (flags.new ≡ map (λ k. rebuilt_flag (rebuilt_from M (seen marks) found slot k)) (range 0 (original_count M.sizes))) }
{
    let p = moved.sizes.p;
    for k in 0..flags.len() {
        let start = k * p;
        let end = start + p;
        let set = usize::from(moved.sets[k]);
        let rows = Rows {
            moved,
            set,
            pages: row(pages, set),
            sources: row(sources, set),
        };
        flags[k] = rebuild_page(rows, store, told, slot, k, &mut area[start..end]);
    }
}

// The same, with tables that are filled for it.
fn rebuild_all(
    moved: Accepted,
    store: &[u8],
    told: Told,
    slot: usize,
    area: &mut [u8],
    flags: &mut [u8],
)
    requires { (length store.now ≡ store_len moved.sizes) × (length area.old ≡ area_length moved.sizes)
        × (length flags.old ≡ flags_length moved.sizes) × Seen (move_in moved) told }
    ensures { let M = move_in moved.entry in (marks : List ℕ) (found : Reading) → Sees M marks found told
        → (area.new ≡ concat_map (λ k. rebuilt_page M.sizes.p (record { store = store.entry.now; marks = marks })
        (rebuilt_from M (seen marks) found slot k)) (range 0 (original_count M.sizes)))
        × (flags.new ≡ map (λ k. rebuilt_flag (rebuilt_from M (seen marks) found slot k)) (range 0 (original_count M.sizes))) }
{
    let mut pages = [0u8; TABLE];
    let mut sources = [0u8; TABLE];
    pages_table(moved, &mut pages);
    sources_table(moved, &mut sources);
    rebuild_pages(moved, &pages, &sources, store, told, slot, area, flags);
}

// Rebuild: checks in the table's order, then every original. A refused rebuild changes nothing that is lent.
pub fn rebuild(
    sizes: Sizes,
    list: &[u16],
    pins: &[u8],
    sets: &[u8],
    store: &[u8],
    marks: &[u8],
    area: &mut [u8],
    flags: &mut [u8],
    slot: usize,
) -> Result<(), Refusal>
    ensures { record { number = number_in result; area = area.new; flags = flags.new }
        ≡ rebuild_answer (request_of sizes list.now pins.now sets.now)
        (record { store = store.entry.now; marks = marks.now }) area.old flags.old slot }
{
    rebuild_refusal(sizes, list, pins, sets, store, marks, area, flags)?;
    let n = sizes.n;
    let told = match read_marks(sizes, marks) {
        MarksRead::NoMoment => return Err(Refusal::BadMarks),
        MarksRead::Full { backward, change } => Told {
            moment: moment_in(backward, n, change, change),
            coded: Some(Coded { backward, change }),
        },
        MarksRead::Torn { backward, block } => Told {
            moment: moment_in(backward, n, block, block + 1),
            coded: None,
        },
    };
    if sizes.slot_count() <= slot {
        return Err(Refusal::BadOriginal);
    }
    let moved = Accepted { sizes, list, sets };
    rebuild_all(moved, store, told, slot, area, flags);
    Ok(())
}
