// Which block sends a page to which, as bits, and the y of an order by them.
ghost use Rattle.std.specs.Prelude.{◌≡◌, ◌≤◌, ◌<◌, length, replicate};
ghost use Rattle.orders.specs.inner.Places.{Surveyable};
ghost use Rattle.orders.specs.inner.Table.{Sends, Short, is_sent_from, y_by};

use flash::quotient::Divisor;
use split::drops::{DROPPED, MASKS, is_marked, mark};

// The bits of one target.
const BITS: usize = 64;

// Marks for each page that is kept its block and the block that it goes to.
pub fn mark_sends(m: usize, list: &[u16], table: &mut [u64; MASKS])
    requires { Surveyable 7 m list.now × (table.old ≡ replicate 64 0) }
    ensures { Sends m list.now (length list.now) table.new }
{
    let divisor = Divisor::new(m);
    for (k, lent) in list.iter().enumerate() {
        if *lent != DROPPED {
            let target = divisor.quotient(usize::from(*lent)) + 1;
            let source = divisor.quotient(k) + 1;
            mark(table, target * BITS + source);
        }
    }
}

// Whether a block from index `from` on sends to `target`.
fn is_sent_from(table: &[u64; MASKS], order: &[u8], from: usize, target: usize) -> bool
    requires { (length table.now ≡ 64) × Short order.now × (from ≤ length order.now) × (target < 64) }
    ensures { result ≡ is_sent_from table.now order.now from target }
{
    for block in &order[from..] {
        if is_marked(table, target * BITS + usize::from(*block)) {
            return true;
        }
    }
    false
}

// The y of an order: the highest place that is sent to from two places behind it or more.
pub fn y_by(table: &[u64; MASKS], order: &[u8]) -> usize
    requires { (length table.now ≡ 64) × Short order.now × (2 ≤ length order.now) }
    ensures { result ≡ y_by table.now order.now }
{
    for i in (1..order.len() - 1).rev() {
        if is_sent_from(table, order, i + 1, usize::from(order[i - 1])) {
            return i;
        }
    }
    0
}
