// Number 12: whether a move would wear a block out.
ghost use Rattle.std.specs.Prelude.{◌≡◌, ◌+◌, ◌≤◌, ltb};
ghost use Rattle.method.specs.Worn.{erases_of, wears_out, is_worn_out};

use flash::wear::Wear;

// The erases of a block in a whole move.
fn erases_of(n: usize, block: usize) -> u32
    ensures { result ≡ erases_of n block }
{
    if (block == 0) | (block == n) { 1 } else { 2 }
}

// Whether so many erases take a counter past the limit. They are not added up, since the sum may have more than 32 bits.
fn passes(limit: u32, counter: u32, erases: u32) -> bool
    ensures { result ≡ ltb limit (counter + erases) }
{
    match limit.checked_sub(counter) {
        Some(left) => left < erases,
        None => true,
    }
}

// Whether a whole move would take the counter of some block of the store past the limit.
fn wears_out(n: usize, wear: Wear, limit: u32) -> bool
    requires { n ≤ 64 }
    ensures { result ≡ wears_out n wear limit }
{
    for (block, counter) in wear.counters[..=n].iter().enumerate() {
        if passes(limit, *counter, erases_of(n, block)) {
            return true;
        }
    }
    false
}

// The same where a move begins; a run from another place is not refused for it.
pub fn is_worn_out(n: usize, wear: Wear, place: usize, limit: u32) -> bool
    requires { n ≤ 64 }
    ensures { result ≡ is_worn_out n wear place limit }
{
    if place != 0 {
        return false;
    }
    wears_out(n, wear, limit)
}
