// The calls for the step program, whose input pins no page and has no counters of erases.
// They complete the list that they are lent, so they get a copy of it.
ghost use Rattle.std.specs.Prelude.{◌≡◌, ◌≤◌, length};
ghost use Rattle.flash.specs.Geometry.{original_count};
ghost use Rattle.flash.specs.Refusals.{number_in};
ghost use Rattle.flash.specs.Wear.{counter_end, unworn};
ghost use Rattle.split.specs.Request.{unpinned};
ghost use Rattle.split.specs.Answer.{split_answer};
ghost use Rattle.method.specs.Answers.{run_answer};
ghost use Rattle.mover.specs.Answers.{ran_as};

use flash::refusal::Refusal;
use flash::sizes::Sizes;
use flash::wear::Wear;
use mover::run::{RunResult, run};
use split::call::split;

// The most originals: n and m are at most 8.
pub const MOST_ORIGINALS: usize = 64;

// A limit that no block of a new module comes to.
const NO_LIMIT: u32 = u32::MAX;

pub fn split_unpinned(sizes: Sizes, list: &[u16], sets: &mut [u8]) -> Result<(), Refusal>
    requires { (sizes.n ≤ 8) × (sizes.m ≤ 8) × (length list.now ≡ original_count sizes) }
    ensures { record { number = number_in result; sets = sets.new }
        ≡ split_answer (unpinned sizes list.now sets.old) }
{
    let pins = [0u8; MOST_ORIGINALS];
    let mut own = [0u16; MOST_ORIGINALS];
    let count = sizes.original_count();
    own[..count].copy_from_slice(list);
    split(sizes, &mut own[..count], &pins[..count], sets)
}

pub fn run_unpinned(
    sizes: Sizes,
    list: &[u16],
    sets: &[u8],
    store: &mut [u8],
    marks: &mut [u8],
    work: &mut [u8],
    place: usize,
    budget: u32,
) -> RunResult
    requires { (sizes.n ≤ 8) × (sizes.m ≤ 8) × (length list.now ≡ original_count sizes) }
    ensures { ran_as result store.exit.now marks.new work.new
        ≡ run_answer (unpinned sizes list.now sets.now) (record { store = store.entry.now; marks = marks.old })
        work.old unworn place budget counter_end }
{
    let pins = [0u8; MOST_ORIGINALS];
    let mut own = [0u16; MOST_ORIGINALS];
    let count = sizes.original_count();
    own[..count].copy_from_slice(list);
    run(
        sizes,
        &mut own[..count],
        &pins[..count],
        sets,
        store,
        marks,
        work,
        Wear::unworn(),
        place,
        budget,
        NO_LIMIT,
    )
}
