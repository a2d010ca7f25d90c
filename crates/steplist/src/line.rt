// The line of one step.
ghost use Rattle.std.specs.Prelude.{◌+◌, ◌≤◌, length};
ghost use Rattle.flash.specs.Geometry.{Bounds};
ghost use Rattle.method.specs.Place.{operation_at, last_place};
ghost use Rattle.listing.specs.Lines.{Printed};
ghost use Rattle.steplist.specs.Output.{step_line};

use flash::sizes::Sizes;
use listing::lines::{put_erase, put_write};
use places::place::{Op, Place};

// Prints the line of the step at a place: after a write the work page is the page written. Answers the next position.
pub fn put_line(out: &mut [u8], at: usize, sizes: Sizes, place: usize, work: &[u8]) -> usize
    requires bounds { Bounds sizes × (place ≤ last_place sizes) }
    requires work_in_bounds { at + length (step_line place (operation_at sizes place) work.now) ≤ length out.old }
    ensures { Printed (step_line place (operation_at sizes place) work.now) out.old at out.new result }
{
    let here = Place::new(sizes, place);
    match here.operation(sizes) {
        Op::Write {
            backward: _,
            block,
            page,
            mark: _,
        } => put_write(out, at, place, block, page, work),
        Op::Erase { block } => put_erase(out, at, place, block),
        Op::Done => at,
    }
}
