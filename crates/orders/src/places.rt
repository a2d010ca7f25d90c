// Where each block stands in an order.
ghost use Rattle.std.specs.Prelude.{◌≡◌, true, false, ◌≤◌, length, MatchOption};
ghost use Rattle.orders.specs.Orders.{bad_order};
ghost use Rattle.orders.specs.inner.Places.{Placed};

// One for each block up to 64, and one for the spare, which stands nowhere.
pub const PLACES: usize = 65;

// Where each block stands, from 1 on, if the order has each of the blocks 1 to n once.
pub fn places_of(order: &[u8], n: usize) -> Option<[usize; PLACES]>
    requires { (n ≤ 64) × (length order.now ≡ n) }
    ensures { MatchOption result (bad_order n order.now ≡ true) (λ places. (bad_order n order.now ≡ false) × Placed order.now n places) }
{
    let mut places = [0usize; PLACES];
    for (i, number) in order.iter().enumerate() {
        let block = usize::from(*number);
        if (block < 1) | (n < block) {
            return None;
        }
        if 0 < places[block] {
            return None;
        }
        places[block] = i + 1;
    }
    Some(places)
}
