// The run: as many steps as the budget allows.
ghost use Rattle.std.specs.Prelude.{◌≡◌, false, Ok, ◌≤◌, length};
ghost use Rattle.flash.specs.Refusals.{number_in};
ghost use Rattle.flash.specs.Lists.{part};
ghost use Rattle.flash.specs.Geometry.{Bounds, store_len};
ghost use Rattle.split.specs.Drops.{list_left};
ghost use Rattle.split.specs.Request.{request_of};
ghost use Rattle.split.specs.inner.Rows.{ByDestination};
ghost use Rattle.method.specs.Move.{Lent};
ghost use Rattle.method.specs.Place.{last_place};
ghost use Rattle.method.specs.Step.{nothing_done};
ghost use Rattle.method.specs.Answers.{is_elsewhere, steps_taken, run_carried_out, run_answer};
ghost use Rattle.method.specs.inner.MoveIn.{move_in};
ghost use Rattle.walk.specs.inner.Terms.{plan_by};
ghost use Rattle.mover.specs.Answers.{run_as, ran_as};
ghost use Rattle.mover.specs.inner.Prepared.{plan_in};
ghost use Rattle.mover.specs.inner.Steps.{DropsIn, OtherTable, last_slot};

use crate::prepared::Prepared;
use crate::refusals::move_refusal;
use crate::step::step;
use crate::wear::is_worn_out;
use flash::bytes::copy;
use flash::quotient::Divisor;
use flash::refusal::Refusal;
use flash::sizes::Sizes;
use flash::wear::Wear;
use method::accepted::Accepted;
use method::tally::Tally;
use places::place::{Place, last_place};
use places::place_marks::is_elsewhere;
use split::drops::MASKS;
use split::rows::sets_by_destination;
use walk::rows::{TABLE, pages_table, sources_table};
use walk::walk::SLOTS;

// How far a run came, what it counted, and whether the move is finished or stopped.
#[derive(Clone, Copy)]
pub struct Ran {
    pub place: u32,
    pub tally: Tally,
    pub finished: bool,
}

// What came of a run, and the counters with that, after a refusal too.
#[derive(Clone, Copy)]
pub struct RunResult {
    pub outcome: Result<Ran, Refusal>,
    pub wear: Wear,
}

fn nothing_done() -> Tally
    ensures { result ≡ nothing_done }
{
    Tally {
        steps: 0,
        writes: 0,
        erases: 0,
        bytes: 0,
        reads: 0,
    }
}

// Fills the table that a pass needs besides that of the pages: the sources, or the sets by destination. It may be there already.
fn fill_other(moved: Accepted, held: bool, backward: bool, other: &mut [u8; TABLE])
    requires { OtherTable (move_in moved) held other.old }
    ensures { OtherTable (move_in moved.entry) backward other.new }
{
    if held == backward {
        return;
    }
    if backward {
        let sizes = moved.sizes;
        sets_by_destination(sizes.n, sizes.m, moved.list, moved.sets, other);
        return;
    }
    sources_table(moved, other);
}

// The last page that was written goes into the work page. The step `at` is its write, or the erase that follows it.
fn keep_last_page(sizes: Sizes, store: &[u8], at: usize, work: &mut [u8])
    requires { Bounds sizes × (at ≤ last_place sizes) × (length store.now ≡ store_len sizes) × (length work.old ≡ sizes.p) }
    ensures { work.new ≡ part sizes.p (last_slot sizes at) store.now }
{
    let last = Place::new(sizes, at);
    let slot = last.block * sizes.m + last.page.min(sizes.m - 1);
    let start = slot * sizes.p;
    copy(work, &store[start..start + sizes.p]);
}

// Takes the steps of a run that is not refused, and tells them. The other table holds the sets by destination, as the check of the move left it.
fn take_steps(
    prepared: Prepared,
    store: &mut [u8],
    marks: &mut [u8],
    work: &mut [u8],
    place: usize,
    budget: usize,
    other: &mut [u8; TABLE],
    wear: &mut Wear,
) -> Ran
    requires { let Z = prepared.moved.sizes in Lent Z (record { store = store.now; marks = marks.old }) work.old
        × (is_elsewhere Z (record { store = store.now; marks = marks.old }) place ≡ false)
        × ByDestination prepared.moved.list.now prepared.moved.sets.now other.old }
    ensures { run_as (Ok result) store.exit.now marks.new work.new wear.new
        ≡ run_carried_out (plan_in prepared.entry)
        (record { store = store.entry.now; marks = marks.old }) work.old wear.old place (steps_taken prepared.entry.moved.sizes place budget) }
{
    let sizes = prepared.moved.sizes;
    let mut tally = nothing_done();
    let mut slots = [0usize; SLOTS];
    let last = last_place(sizes);
    let taken = budget.min(last - place);
    let mut at = Place::new(sizes, place);
    let few = prepared.pages.is_none();
    let mut held = true;
    for i in 0..taken {
        let by_destination = at.backward | few;
        fill_other(prepared.moved, held, by_destination, other);
        held = by_destination;
        tally = step(prepared, other, &mut slots, store, marks, at, tally);
        if at.page == sizes.m {
            wear.rise(at.freed(sizes));
        }
        at = at.next(sizes);
    }
    let reached = place + taken;
    if 0 < tally.writes {
        keep_last_page(sizes, store, reached - 1, work);
    }
    Ran {
        place: reached as u32,
        tally,
        finished: reached == last,
    }
}

// Carries out a run that is not refused. Tables are worth while for more than a few steps.
fn carry_out<'a>(
    moved: Accepted<'a>,
    store: &mut [u8],
    marks: &mut [u8],
    work: &mut [u8],
    place: usize,
    budget: usize,
    other: &mut [u8; TABLE],
    drops: &'a [u64; MASKS],
    places: &'a [u64; MASKS],
    wear: &mut Wear,
) -> Ran
    requires { Lent moved.sizes (record { store = store.now; marks = marks.old }) work.old
        × (is_elsewhere moved.sizes (record { store = store.now; marks = marks.old }) place ≡ false)
        × ByDestination moved.list.now moved.sets.now other.old × DropsIn (move_in moved) drops.now places.now }
    ensures { let M = moved.entry in run_as (Ok result) store.exit.now marks.new work.new wear.new
        ≡ run_carried_out (plan_by M.sizes M.list.now M.sets.now drops.now)
        (record { store = store.entry.now; marks = marks.old }) work.old wear.old place (steps_taken M.sizes place budget) }
{
    let divisor = Divisor::new(moved.sizes.m);
    if budget <= moved.sizes.m / 8 + 1 {
        let prepared = Prepared {
            moved,
            divisor,
            pages: None,
            drops,
            places,
        };
        return take_steps(prepared, store, marks, work, place, budget, other, wear);
    }
    let mut pages = [0u8; TABLE];
    pages_table(moved, &mut pages);
    let prepared = Prepared {
        moved,
        divisor,
        pages: Some(&pages),
        drops,
        places,
    };
    take_steps(prepared, store, marks, work, place, budget, other, wear)
}

// Checks in the table's order, then the steps.
fn checked_run(
    sizes: Sizes,
    list: &mut [u16],
    pins: &[u8],
    sets: &[u8],
    store: &mut [u8],
    marks: &mut [u8],
    work: &mut [u8],
    wear: &mut Wear,
    place: usize,
    budget: u32,
    limit: u32,
) -> Result<Ran, Refusal>
    ensures work_after { run_as result store.exit.now marks.new work.new wear.new
        ≡ run_answer (request_of sizes list.old pins.now sets.now)
        (record { store = store.entry.now; marks = marks.old }) work.old wear.old place budget limit }
    ensures list_after { list.new ≡ list_left (number_in result) list.old }
{
    let mut table = [0u8; TABLE];
    let mut drops = [0u64; MASKS];
    let mut places = [0u64; MASKS];
    move_refusal(
        sizes,
        list,
        pins,
        sets,
        store,
        marks,
        work,
        &mut table,
        &mut drops,
        &mut places,
    )?;
    if is_elsewhere(sizes, store, marks, place) {
        return Err(Refusal::BadPlace);
    }
    if is_worn_out(sizes.n, *wear, place, limit) {
        return Err(Refusal::BadWear);
    }
    let moved = Accepted { sizes, list, sets };
    Ok(carry_out(
        moved,
        store,
        marks,
        work,
        place,
        budget as usize,
        &mut table,
        &drops,
        &places,
        wear,
    ))
}

// The run. A refused run changes nothing that is lent but the list, which is completed once it is judged. The counters go in by value and come back
// with every answer.
pub fn run(
    sizes: Sizes,
    list: &mut [u16],
    pins: &[u8],
    sets: &[u8],
    store: &mut [u8],
    marks: &mut [u8],
    work: &mut [u8],
    mut wear: Wear,
    place: usize,
    budget: u32,
    limit: u32,
) -> RunResult
    ensures work_after { ran_as result store.exit.now marks.new work.new
        ≡ run_answer (request_of sizes list.old pins.now sets.now)
        (record { store = store.entry.now; marks = marks.old }) work.old wear place budget limit }
    ensures list_after { list.new ≡ list_left (number_in result.outcome) list.old }
{
    let outcome = checked_run(
        sizes, list, pins, sets, store, marks, work, &mut wear, place, budget, limit,
    );
    RunResult { outcome, wear }
}
