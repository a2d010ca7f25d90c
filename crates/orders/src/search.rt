// The orders of up to 7 blocks by their numbers in dictionary order, and the search for the best of them.
ghost use Rattle.std.specs.Prelude.{◌≡◌, map, ℕ, ◌≤◌, ◌<◌, length, get_or};
ghost use Rattle.orders.specs.Dictionary.{factorial, leaving, order_at};
ghost use Rattle.orders.specs.inner.Table.{y_by};
ghost use Rattle.orders.specs.inner.Search.{FirstLeast};

use crate::table::y_by;
use split::drops::MASKS;

// The most blocks whose orders are all tried: there are 5,040.
pub const MOST_SEARCHED: usize = 7;

fn order_count(n: usize) -> usize
    requires { n ≤ 7 }
    ensures { result ≡ factorial n }
{
    let mut count = 1;
    for i in 0..n {
        count = (i + 1) * count;
    }
    count
}

// The number of a block among all, where it is numbered without `left`.
fn raised(left: u8, block: u8) -> u8
    requires { block ≤ 7 }
    ensures { result ≡ leaving left block }
{
    if left <= block { block + 1 } else { block }
}

fn raise(part: &mut [u8], left: u8)
    requires { (i : ℕ) → i < length part.old → get_or part.old i 0 ≤ 7 }
    ensures { part.new ≡ map (leaving left) part.old }
{
    for block in part.iter_mut() {
        *block = raised(left, *block);
    }
}

// Writes order k, from its last place on.
pub fn put_order(order: &mut [u8], k: usize)
    requires { (length order.old ≤ 7) × (k < factorial (length order.old)) }
    ensures { order.new ≡ order_at (length order.old) k }
{
    let mut rest = k;
    for i in (0..order.len()).rev() {
        let count = order.len() - i;
        let block = (rest % count + 1) as u8;
        rest = rest / count;
        raise(&mut order[i + 1..], block);
        order[i] = block;
    }
}

// The y of order k, which is left in the lent bytes.
fn y_in(order: &mut [u8], k: usize, table: &[u64; MASKS]) -> usize
    requires { (3 ≤ length order.old) × (length order.old ≤ 7) × (k < factorial (length order.old)) × (length table.now ≡ 64) }
    ensures { result ≡ y_by table.now (order_at (length order.old) k) }
{
    put_order(order, k);
    y_by(table, order)
}

fn y_of(n: usize, k: usize, table: &[u64; MASKS]) -> usize
    requires { (3 ≤ n) × (n ≤ 7) × (k < factorial n) × (length table.now ≡ 64) }
    ensures { result ≡ y_by table.now (order_at n k) }
{
    let mut order = [0u8; MOST_SEARCHED];
    y_in(&mut order[..n], k, table)
}

// The number of the first order with the least y.
pub fn best_number(n: usize, table: &[u64; MASKS]) -> usize
    requires { (3 ≤ n) × (n ≤ 7) × (length table.now ≡ 64) }
    ensures { FirstLeast (λ k. y_by table.now (order_at n k)) (factorial n) result }
{
    let count = order_count(n);
    let mut best = n;
    let mut at = 0;
    for k in 0..count {
        let y = y_of(n, k, table);
        if y < best {
            best = y;
            at = k;
        }
    }
    at
}
