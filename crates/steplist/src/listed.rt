// The lines of all steps and the end line.
ghost use Rattle.std.specs.Prelude.{◌≡◌, ◌+◌, ◌≤◌, ◌<◌, length};
ghost use Rattle.split.specs.Request.{unpinned};
ghost use Rattle.method.specs.Move.{plan};
ghost use Rattle.method.specs.Place.{last_place};
ghost use Rattle.method.specs.Step.{running_of};
ghost use Rattle.listing.specs.Area.{Written};
ghost use Rattle.steplist.specs.Output.{move_lines};
ghost use Rattle.steplist.specs.inner.Listing.{Listable, moved, most_line, most_output, Stepped};

use crate::line::put_line;
use crate::unpinned::run_unpinned;
use flash::sizes::Sizes;
use listing::lines::put_end;
use places::place::last_place;

// How far the listing has come: the next position, and what was counted.
#[derive(Clone, Copy)]
pub struct Shown {
    pub at: usize,
    pub writes: usize,
    pub erases: usize,
}

// Takes the step at a place and prints its line.
fn put_step(
    out: &mut [u8],
    at: usize,
    sizes: Sizes,
    list: &[u16],
    sets: &[u8],
    store: &mut [u8],
    marks: &mut [u8],
    work: &mut [u8],
    place: usize,
) -> Shown
    requires listable { Listable (unpinned sizes list.now sets.now) (running_of store.old marks.old work.old) place }
    requires place_bound { (place < last_place sizes) × (at + most_line ≤ length out.old) }
    ensures { Stepped (plan (unpinned sizes list.now sets.now)) place
        (running_of store.old marks.old work.old) out.old at result out.new
        store.new marks.new work.new }
{
    let ran = run_unpinned(sizes, list, sets, store, marks, work, place, 1);
    let next = put_line(out, at, sizes, place, work);
    match ran.outcome {
        Ok(taken) => Shown {
            at: next,
            writes: taken.tally.writes as usize,
            erases: taken.tally.erases as usize,
        },
        // A step of an accepted move is not refused; a run that is counts nothing.
        Err(_) => Shown {
            at: next,
            writes: 0,
            erases: 0,
        },
    }
}

// Moves a store at rest step by step, and prints the lines of the steps and the end line. Answers how many bytes were printed.
pub fn put_listing(
    out: &mut [u8],
    sizes: Sizes,
    list: &[u16],
    sets: &[u8],
    store: &mut [u8],
    marks: &mut [u8],
    work: &mut [u8],
) -> usize
    requires { Listable (unpinned sizes list.now sets.now) (running_of store.old marks.old work.old) 0
        × (most_output ≤ length out.old) }
    ensures written { Written (move_lines (plan (unpinned sizes list.now sets.now))
        (running_of store.old marks.old work.old)) out.old out.new result }
    ensures work_after { running_of store.new marks.new work.new
        ≡ moved (plan (unpinned sizes list.now sets.now))
        (running_of store.old marks.old work.old) }
{
    let mut at = 0;
    let mut writes = 0;
    let mut erases = 0;
    for place in 0..last_place(sizes) {
        let step = put_step(out, at, sizes, list, sets, store, marks, work, place);
        at = step.at;
        writes += step.writes;
        erases += step.erases;
    }
    put_end(out, at, writes, erases)
}
