// The listing of the method's steps by originals.
ghost use Rattle.std.specs.Prelude.{◌+◌, ◌≤◌, ◌<◌, [], ◌∷◌, length};
ghost use Rattle.flash.specs.Lists.{concat_map};
ghost use Rattle.method.specs.Move.{AcceptedMove};
ghost use Rattle.method.specs.inner.MoveIn.{move_in};
ghost use Rattle.method.specs.Place.{operation_at, last_place};
ghost use Rattle.listing.specs.Digits.{decimal};
ghost use Rattle.listing.specs.Lines.{Printed, originals_line};
ghost use Rattle.listing.specs.Area.{Written};
ghost use Rattle.checker.specs.Method.{step_text, move_by, method_text};
ghost use Rattle.steplist.specs.inner.Listing.{most_line, most_output};
ghost use Rattle.steplist.specs.inner.Originals.{originals_as};

use crate::originals::{Originals, originals_of};
use flash::sizes::Sizes;
use listing::digits::{put_field, put_text};
use listing::lines::{put_end, put_erase, put_head};
use method::accepted::Accepted;
use places::place::{Op, Place, last_place};

// Each original as a field.
fn put_fields(out: &mut [u8], at: usize, originals: Originals) -> usize
    requires { at + length (concat_map (λ k. 32 ∷ decimal k) (originals_as originals)) ≤ length out.old }
    ensures { Printed (concat_map (λ k. 32 ∷ decimal k) (originals_as originals)) out.old at out.new result }
{
    match originals {
        Originals::One { original } => put_field(out, at, b" ", original),
        Originals::Two { low, high } => {
            let next = put_field(out, at, b" ", low);
            put_field(out, next, b" ", high)
        }
    }
}

fn put_originals(
    out: &mut [u8],
    at: usize,
    step: usize,
    block: usize,
    page: usize,
    originals: Originals,
) -> usize
    requires { at + length (originals_line step block page (originals_as originals)) ≤ length out.old }
    ensures { Printed (originals_line step block page (originals_as originals)) out.old at out.new result }
{
    let past_page = put_head(out, at, step, block, page);
    let past_originals = put_fields(out, past_page, originals);
    put_text(out, past_originals, b"\n")
}

// Prints the line of the step at a place. Answers the next position.
fn put_step_line(out: &mut [u8], at: usize, moved: Accepted, place: usize) -> usize
    requires { (moved.sizes.n ≤ 8) × (moved.sizes.m ≤ 8) × (place < last_place moved.sizes) × (at + most_line ≤ length out.old) }
    ensures { Printed (step_text (move_in moved.entry) place (operation_at moved.entry.sizes place))
        out.old at out.new result × (result ≤ at + most_line) }
{
    let sizes = moved.sizes;
    let here = Place::new(sizes, place);
    match here.operation(sizes) {
        Op::Write {
            backward,
            block,
            page,
            mark: _,
        } => {
            let originals = originals_of(moved, backward, block, page);
            put_originals(out, at, place, block, page, originals)
        }
        Op::Erase { block } => put_erase(out, at, place, block),
        Op::Done => at,
    }
}

// Prints the lines of all steps and the end line. Answers how many bytes were printed.
pub fn put_method(out: &mut [u8], n: usize, m: usize, list: &[u16], sets: &[u8]) -> usize
    requires { AcceptedMove (move_by n m list.now sets.now) × (n ≤ 8) × (m ≤ 8) × (most_output ≤ length out.old) }
    ensures { Written (method_text n m list.now sets.now) out.old out.new result }
{
    let sizes = Sizes { n, m, p: 1, s: 0 };
    let moved = Accepted { sizes, list, sets };
    let mut at = 0;
    for place in 0..last_place(sizes) {
        at = put_step_line(out, at, moved, place);
    }
    put_end(out, at, 2 * n * m, 2 * n)
}
