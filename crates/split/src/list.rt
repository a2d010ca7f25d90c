// The check of a list of destinations, and of its pins.
ghost use Rattle.std.specs.Prelude.{◌≡◌, cond, not, ◌≤◌, length, replicate};
ghost use Rattle.flash.specs.Refusals.{number_in};
ghost use Rattle.split.specs.OneToOne.{bad_list};
ghost use Rattle.split.specs.Pins.{moves_pinned};
ghost use Rattle.split.specs.inner.Dropping.{KeptMarked};

use crate::drops::{DROPPED, MASKS, is_marked, mark};
use crate::pins::moves_pinned;
use flash::refusal::Refusal;

// Refuses a list with an entry of a kept page at or above `originals`, or one that is met twice. Else the marks tell which numbers were met.
fn check(list: &[u16], originals: usize, marks: &mut [u64; MASKS]) -> Result<(), Refusal>
    requires { (originals ≤ 4096) × (marks.old ≡ replicate 64 0) }
    ensures value { number_in result ≡ cond (bad_list originals list.now) 3 0 }
    ensures kept_marked { number_in result ≡ 0 → KeptMarked list.now marks.new }
{
    for lent in list {
        if *lent != DROPPED {
            let number = usize::from(*lent);
            if originals <= number || is_marked(marks, number) {
                return Err(Refusal::BadList);
            }
            mark(marks, number);
        }
    }
    Ok(())
}

// Refuses a lent list as number 3 or 11. Else the marks are on the numbers that kept pages are sent to.
pub fn list_refusal(
    list: &[u16],
    pins: &[u8],
    originals: usize,
    marks: &mut [u64; MASKS],
) -> Result<(), Refusal>
    requires { (length pins.now ≡ length list.now) × (length list.now ≤ 4096) × (originals ≤ 4096) × (marks.old ≡ replicate 64 0) }
    ensures value { number_in result ≡ cond (bad_list originals list.now) 3 (cond (moves_pinned pins.now list.now) 11 0) }
    ensures kept_marked { number_in result ≡ 0 → KeptMarked list.now marks.new }
{
    check(list, originals, marks)?;
    if moves_pinned(pins, list) {
        return Err(Refusal::BadPins);
    }
    Ok(())
}

// Whether a list would not be refused as 3, whatever is pinned.
pub fn is_good(list: &[u16], originals: usize) -> bool
    requires { originals ≤ 4096 }
    ensures { result ≡ not (bad_list originals list.now) }
{
    let mut marks = [0u64; MASKS];
    check(list, originals, &mut marks).is_ok()
}
