// The split call: its refusals in the table's order, then the rule.
ghost use Rattle.std.specs.Prelude.{◌≡◌, replicate};
ghost use Rattle.flash.specs.Tables.{refusal};
ghost use Rattle.flash.specs.Refusals.{number_in};
ghost use Rattle.split.specs.Drops.{list_left};
ghost use Rattle.split.specs.Request.{request_of};
ghost use Rattle.split.specs.Answer.{split_rows, split_answer};
ghost use Rattle.split.specs.inner.Dropping.{KeptMarked};

use crate::drops::{MASKS, complete_list};
use crate::list::list_refusal;
use crate::rule::fill;
use flash::refusal::Refusal;
use flash::sizes::Sizes;

// Refuses as the first row of the table that fits. Where none does, the marks are on the numbers that kept pages are sent to. Nothing is
// multiplied before the sizes are in range.
fn refusal(
    sizes: Sizes,
    list: &[u16],
    pins: &[u8],
    sets: &[u8],
    marks: &mut [u64; MASKS],
) -> Result<(), Refusal>
    requires { marks.old ≡ replicate 64 0 }
    ensures value { number_in result ≡ refusal (split_rows (request_of sizes list.now pins.now sets.now)) }
    ensures kept_marked { number_in result ≡ 0 → KeptMarked list.now marks.new }
{
    if !sizes.in_range() {
        return Err(Refusal::BadSizes);
    }
    let originals = sizes.original_count();
    if (list.len() != originals) | (pins.len() != originals) | (sets.len() != originals) {
        return Err(Refusal::BadLength);
    }
    list_refusal(list, pins, originals, marks)
}

// Completes the list and fills the set bytes by the rule, or refuses and leaves both.
pub fn split(sizes: Sizes, list: &mut [u16], pins: &[u8], sets: &mut [u8]) -> Result<(), Refusal>
    ensures sets_after { record { number = number_in result; sets = sets.new }
        ≡ split_answer (request_of sizes list.old pins.now sets.old) }
    ensures list_after { list.new ≡ list_left (number_in result) list.old }
{
    let mut places = [0u64; MASKS];
    refusal(sizes, list, pins, sets, &mut places)?;
    complete_list(list, &mut places);
    fill(sizes.n, sizes.m, list, sets);
    Ok(())
}
