// A line of a listing, read from a position of the text on.
ghost use Rattle.std.specs.Prelude.{◌≡◌, [], ◌∷◌, ◌*◌, ◌≤◌, ◌<◌, length, drop, take};
ghost use Rattle.flash.specs.Lists.{is_same};
ghost use Rattle.checker.specs.Lines.{read_end, read_erase, read_write, read_step, read_line};
ghost use Rattle.checker.specs.inner.Told.{cap, Gathered, said_of, told_as, Ahead};

use crate::number::{SPACE, field, is_at, read_number};

const LINE_FEED: u8 = 10;

// The letters of a write and of an erase.
const W: u8 = 87;

const E: u8 = 69;

// What a line says, with the mask of the originals that a write sums, and the position behind its line feed.
#[derive(Clone, Copy)]
pub enum Told {
    Write {
        block: usize,
        page: usize,
        mask: u64,
        next: usize,
    },
    Erase {
        block: usize,
        next: usize,
    },
    End {
        writes: usize,
        erases: usize,
        next: usize,
    },
}

// The originals of a write: their mask, and the position behind them.
#[derive(Clone, Copy)]
pub struct Originals {
    pub mask: u64,
    pub next: usize,
}

// One original or more, rising.
fn gather(text: &[u8], at: usize, count: usize) -> Option<Originals>
    requires { (at ≤ length text.now) × (count ≤ 64) }
    ensures { Gathered text.now at count result }
{
    let mut next = at;
    let mut mask: u64 = 0;
    let mut least = 0;
    for _ in 0..count {
        let Some(one) = field(text, next) else {
            break;
        };
        let k = one.value;
        if (k < least) | (count <= k) {
            return None;
        }
        mask ^= 1u64 << k;
        least = k + 1;
        next = one.next;
    }
    if 0 < least {
        Some(Originals { mask, next })
    } else {
        None
    }
}

fn read_write(text: &[u8], at: usize, n: usize, m: usize) -> Option<Told>
    requires { (at ≤ length text.now) × (n ≤ 64) × (m ≤ 64) × (n * m ≤ 64) }
    ensures result_value { told_as text.now result ≡ said_of (read_write n m (drop at text.now)) }
    ensures ahead { Ahead n m at (length text.now) result }
{
    let block = field(text, at)?;
    if n < block.value {
        return None;
    }
    let page = field(text, block.next)?;
    if m <= page.value {
        return None;
    }
    let found = gather(text, page.next, n * m)?;
    if !is_at(text, found.next, LINE_FEED) {
        return None;
    }
    Some(Told::Write {
        block: block.value,
        page: page.value,
        mask: found.mask,
        next: found.next + 1,
    })
}

fn read_erase(text: &[u8], at: usize, n: usize) -> Option<Told>
    requires { (at ≤ length text.now) × (n ≤ 64) }
    ensures result_value { told_as text.now result ≡ said_of (read_erase n (drop at text.now)) }
    ensures ahead { Ahead n 0 at (length text.now) result }
{
    let block = field(text, at)?;
    if n < block.value {
        return None;
    }
    if !is_at(text, block.next, LINE_FEED) {
        return None;
    }
    Some(Told::Erase {
        block: block.value,
        next: block.next + 1,
    })
}

fn read_end(text: &[u8], at: usize) -> Option<Told>
    requires { at ≤ length text.now }
    ensures result_value { told_as text.now result ≡ said_of (read_end (drop at text.now)) }
    ensures ahead { Ahead 0 0 at (length text.now) result }
{
    let writes = field(text, at)?;
    let erases = field(text, writes.next)?;
    if !is_at(text, erases.next, LINE_FEED) {
        return None;
    }
    Some(Told::End {
        writes: writes.value,
        erases: erases.value,
        next: erases.next + 1,
    })
}

// Whether a space and this letter stand at a position.
fn is_letter(text: &[u8], at: usize, letter: u8) -> bool
    requires { 1 ≤ letter }
    ensures { result ≡ is_same (take 2 (drop at text.now)) (32 ∷ letter ∷ []) }
{
    is_at(text, at, SPACE) && is_at(text, at + 1, letter)
}

// Whether `end` stands at a position.
fn is_end(text: &[u8], at: usize) -> bool
    ensures { result ≡ is_same (take 3 (drop at text.now)) (101 ∷ 110 ∷ 100 ∷ []) }
{
    is_at(text, at, 101) && is_at(text, at + 1, 110) && is_at(text, at + 2, 100)
}

fn read_step(text: &[u8], at: usize, n: usize, m: usize, step: usize) -> Option<Told>
    requires { (at ≤ length text.now) × (n ≤ 64) × (m ≤ 64) × (n * m ≤ 64) × (step < cap) }
    ensures result_value { told_as text.now result ≡ said_of (read_step n m step (drop at text.now)) }
    ensures ahead { Ahead n m at (length text.now) result }
{
    let own = read_number(text, at)?;
    if own.value != step {
        return None;
    }
    if is_letter(text, own.next, W) {
        return read_write(text, own.next + 2, n, m);
    }
    if is_letter(text, own.next, E) {
        return read_erase(text, own.next + 2, n);
    }
    None
}

// The line at a position, where the step has the number `step`; none if it has another form.
pub fn read_line(text: &[u8], at: usize, n: usize, m: usize, step: usize) -> Option<Told>
    requires { (at ≤ length text.now) × (n ≤ 64) × (m ≤ 64) × (n * m ≤ 64) × (step < cap) }
    ensures result_value { told_as text.now result ≡ said_of (read_line n m step (drop at text.now)) }
    ensures ahead { Ahead n m at (length text.now) result }
{
    if is_end(text, at) {
        return read_end(text, at + 3);
    }
    read_step(text, at, n, m, step)
}
