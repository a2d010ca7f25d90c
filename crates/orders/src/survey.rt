// One pass over the pages: the highest place that one of them goes back to over another, and the first such page.
ghost use Rattle.std.specs.Prelude.{◌≡◌, ◌<◌, length};
ghost use Rattle.orders.specs.inner.Places.{Surveyable, back_to, Surveyed};

use crate::places::PLACES;
use flash::quotient::Divisor;
use split::drops::DROPPED;

// The least y of an order, and the page that forbids the next lower one.
#[derive(Clone, Copy)]
pub struct Least {
    pub y: usize,
    pub page: usize,
}

// The place that page k goes back to, or 0.
fn back_to(divisor: Divisor, list: &[u16], places: &[usize; PLACES], k: usize) -> usize
    requires { Surveyable 64 divisor.by list.now × (length places.now ≡ 65) × (k < length list.now) }
    ensures { result ≡ back_to divisor.by list.now places.now k }
{
    let lent = list[k];
    if lent == DROPPED {
        return 0;
    }
    let target = places[divisor.quotient(usize::from(lent)) + 1];
    let source = places[divisor.quotient(k) + 1];
    if source < 2 {
        return 0;
    }
    if target <= source - 2 { target } else { 0 }
}

pub fn survey(m: usize, list: &[u16], places: &[usize; PLACES]) -> Least
    requires { Surveyable 64 m list.now × (length places.now ≡ 65) }
    ensures { Surveyed m list.now places.now (length list.now) result }
{
    let divisor = Divisor::new(m);
    let mut found = Least { y: 0, page: 0 };
    for k in 0..list.len() {
        let place = back_to(divisor, list, places, k);
        if found.y < place {
            found = Least { y: place, page: k };
        }
    }
    found
}
