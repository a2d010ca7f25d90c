// The call: whether a listing of another mover's steps would survive a cut at any line. Nothing is multiplied before the sizes are in their ranges.
ghost use Rattle.std.specs.Prelude.{◌≡◌, ◌+◌, ◌*◌, length};
ghost use Rattle.checker.specs.Answer.{are_sizes, check_from, start, check_answer};
ghost use Rattle.checker.specs.Pages.{resting_pages};
ghost use Rattle.checker.specs.inner.Turns.{Checkable};
ghost use Rattle.checker.specs.inner.Checks.{checked_as};

use crate::fault::Fault;
use crate::pages::put_rest;
use crate::turn::{Cursor, Turn, take_turn};
use flash::refusal::Refusal;
use split::drops::has_drop;
use split::list::is_good;

// The most slots: those of 64 originals, and of a spare that is no larger than they are.
const MOST_SLOTS: usize = 128;

fn are_sizes(n: usize, m: usize) -> bool
    ensures { result ≡ are_sizes n m }
{
    (1..=64).contains(&n) && (1..=64).contains(&m) && n * m <= 64
}

// Judges line by line, from pages at rest. A listing without an end line is not accepted.
fn check_lines(
    n: usize,
    m: usize,
    list: &[u16],
    text: &[u8],
    pages: &mut [u64],
) -> Result<bool, Fault>
    requires { Checkable n m list.now × (pages.old ≡ resting_pages n m) }
    ensures { checked_as result
        ≡ check_from n m list.now (length text.now) text.now (start n m list.now) }
{
    let mut done = Cursor {
        writes: 0,
        erases: 0,
        at: 0,
    };
    // Where the next line begins is known by this one alone.
    while done.at < text.len() {
        match take_turn(n, m, list, text, pages, done)? {
            Turn::On(more) => done = more,
            Turn::End { accepted } => return Ok(accepted),
        }
    }
    Ok(false)
}

fn check_from_rest(
    n: usize,
    m: usize,
    list: &[u16],
    text: &[u8],
    pages: &mut [u64],
) -> Result<bool, Fault>
    requires { Checkable n m list.now × (length pages.old ≡ (n + 1) * m) }
    ensures { checked_as result
        ≡ check_from n m list.now (length text.now) text.now (start n m list.now) }
{
    put_rest(pages, n, m);
    check_lines(n, m, list, text, pages)
}

// Whether the listing is accepted, or what is wrong with it.
pub fn check(n: usize, m: usize, list: &[u16], text: &[u8]) -> Result<bool, Fault>
    ensures { checked_as result ≡ check_answer n m list.now text.now }
{
    if !are_sizes(n, m) {
        return Err(Fault::Lent(Refusal::BadSizes));
    }
    if list.len() != n * m {
        return Err(Fault::Lent(Refusal::BadLength));
    }
    if has_drop(list) {
        return Err(Fault::Lent(Refusal::BadList));
    }
    if !is_good(list, n * m) {
        return Err(Fault::Lent(Refusal::BadList));
    }
    let mut pages = [0u64; MOST_SLOTS];
    let slots = (n + 1) * m;
    check_from_rest(n, m, list, text, &mut pages[..slots])
}
