// The two calls: the least y of an order, and the order with the least y of all.
ghost use Rattle.std.specs.Prelude.{◌≡◌};
ghost use Rattle.flash.specs.Refusals.{number_in};
ghost use Rattle.flash.specs.Tables.{refusal};
ghost use Rattle.orders.specs.Answer.{list_rows, least_answer, best_answer};
ghost use Rattle.orders.specs.inner.Calls.{least_as, best_as};

use crate::places::places_of;
use crate::search::{MOST_SEARCHED, best_number, put_order};
use crate::survey::{Least, survey};
use crate::table::mark_sends;
use flash::refusal::Refusal;
use flash::sizes::{MOST_BLOCKS, Sizes};
use split::drops::MASKS;
use split::list::is_good;

// Refused as numbers 1, 16, 2 and 3. Nothing is multiplied before the sizes are in their ranges.
fn list_refusal(n: usize, m: usize, most: usize, list: &[u16], order: &[u8]) -> Result<(), Refusal>
    ensures { number_in result ≡ refusal (list_rows n m most list.now order.now) }
{
    let sizes = Sizes { n, m, p: 1, s: 0 };
    if !sizes.in_range() {
        return Err(Refusal::BadSizes);
    }
    if (n < 3) | (most < n) {
        return Err(Refusal::BadBlocks);
    }
    if (list.len() != n * m) | (order.len() != n) {
        return Err(Refusal::BadLength);
    }
    if !is_good(list, n * m) {
        return Err(Refusal::BadList);
    }
    Ok(())
}

pub fn least_y(n: usize, m: usize, list: &[u16], order: &[u8]) -> Result<Least, Refusal>
    ensures { least_as result ≡ least_answer n m list.now order.now }
{
    list_refusal(n, m, MOST_BLOCKS, list, order)?;
    let Some(places) = places_of(order, n) else {
        return Err(Refusal::BadOrder);
    };
    Ok(survey(m, list, &places))
}

pub fn best_order(n: usize, m: usize, list: &[u16], order: &mut [u8]) -> Result<Least, Refusal>
    ensures { best_as result order.new ≡ best_answer n m list.now order.old }
{
    list_refusal(n, m, MOST_SEARCHED, list, order)?;
    let mut table = [0u64; MASKS];
    mark_sends(m, list, &mut table);
    let k = best_number(n, &table);
    put_order(order, k);
    least_y(n, m, list, order)
}
