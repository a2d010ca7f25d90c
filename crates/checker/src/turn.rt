// What one line of a listing leads to.
ghost use Rattle.std.specs.Prelude.{◌≡◌, cond, not, ◌&&◌, ◌+◌, ◌*◌, ◌^◌, ◌≤◌, ◌<◌, length, drop};
ghost use Rattle.flash.specs.declared.refusal.Refusal.TheVariants.{BadWrite, LostOriginal};
ghost use Rattle.checker.specs.Lines.{read_line};
ghost use Rattle.checker.specs.Pages.{is_bad_write, page_written, block_erased, are_determined, is_requested};
ghost use Rattle.checker.specs.Answer.{turn};
ghost use Rattle.checker.specs.inner.Pages.{Masks};
ghost use Rattle.checker.specs.inner.Turns.{Checkable, Standing, on_if, ended_if, turn_as, GoesOn};

use crate::basis::are_determined;
use crate::fault::Fault;
use crate::line::{Told, read_line};
use crate::pages::{erase, is_bad_write, is_requested};
use flash::refusal::Refusal;

// How far a listing is judged: its good steps, and where the next line begins.
#[derive(Clone, Copy)]
pub struct Cursor {
    pub writes: usize,
    pub erases: usize,
    pub at: usize,
}

// What a good line leads to. A listing that ends is accepted or not.
#[derive(Clone, Copy)]
pub enum Turn {
    On(Cursor),
    End { accepted: bool },
}

// Writes a page, unless it must not be written. What was determined before stays so, with the page and without it.
fn write_page(
    pages: &mut [u64],
    m: usize,
    block: usize,
    page: usize,
    mask: u64,
    done: Cursor,
    next: usize,
) -> Result<Turn, Fault>
    requires { (block * m + m ≤ length pages.old) × (page < m) × (done.writes + done.erases + 1 < 2 ^ 64) }
    ensures value { result ≡ on_if (not (is_bad_write m pages.old block page)) (done.writes + 1) done.erases next
        BadWrite (done.writes + done.erases + 1) }
    ensures pages_after { pages.new ≡ cond (is_bad_write m pages.old block page) pages.old
        (page_written m pages.old block page mask) }
{
    if is_bad_write(pages, m, block, page) {
        return Err(Fault::Line {
            refusal: Refusal::BadWrite,
            line: done.writes + done.erases + 1,
        });
    }
    pages[block * m + page] = mask;
    Ok(Turn::On(Cursor {
        writes: done.writes + 1,
        erases: done.erases,
        at: next,
    }))
}

// Erases a block, and asks whether all originals are determined still.
fn erase_block(
    pages: &mut [u64],
    count: usize,
    m: usize,
    block: usize,
    done: Cursor,
    next: usize,
) -> Result<Turn, Fault>
    requires { (block * m + m ≤ length pages.old) × (count ≤ 64) × Masks count pages.old × (done.writes + done.erases + 1 < 2 ^ 64) }
    ensures value { result ≡ on_if (are_determined count (block_erased m pages.old block)) done.writes (done.erases + 1) next
        LostOriginal (done.writes + done.erases + 1) }
    ensures pages_after { pages.new ≡ block_erased m pages.old block }
{
    erase(pages, m, block);
    if !are_determined(pages, count) {
        return Err(Fault::Line {
            refusal: Refusal::LostOriginal,
            line: done.writes + done.erases + 1,
        });
    }
    Ok(Turn::On(Cursor {
        writes: done.writes,
        erases: done.erases + 1,
        at: next,
    }))
}

// Whether a listing that ends is accepted: its counts are true and the pages are as the list asks.
fn is_finished(n: usize, m: usize, list: &[u16], pages: &[u64], counted: bool) -> bool
    requires { Checkable n m list.now × (length pages.now ≡ (n + 1) * m) }
    ensures { result ≡ (counted && is_requested m list.now pages.now) }
{
    counted && is_requested(pages, m, list)
}

// What the end line leads to, behind so many steps.
fn end_turn(
    n: usize,
    m: usize,
    list: &[u16],
    pages: &[u64],
    more: bool,
    counted: bool,
    step: usize,
) -> Result<Turn, Fault>
    requires { Checkable n m list.now × (length pages.now ≡ (n + 1) * m) × (step + 2 < 2 ^ 64) }
    ensures { result ≡ ended_if more step (counted && is_requested m list.now pages.now) }
{
    if more {
        return Err(Fault::Line {
            refusal: Refusal::BadLine,
            line: step + 2,
        });
    }
    Ok(Turn::End {
        accepted: is_finished(n, m, list, pages, counted),
    })
}

// The next line is judged, and the pages change by it.
pub fn take_turn(
    n: usize,
    m: usize,
    list: &[u16],
    text: &[u8],
    pages: &mut [u64],
    done: Cursor,
) -> Result<Turn, Fault>
    requires { Checkable n m list.now × Standing n m pages.old text.now done.writes done.erases done.at × (done.at < length text.now) }
    ensures pages_after { turn_as result pages.new ≡ turn n m list.now
        (read_line n m (done.writes + done.erases) (drop done.at text.now)).line
        (read_line n m (done.writes + done.erases) (drop done.at text.now)).rest
        (record { writes = done.writes; erases = done.erases; pages = pages.old }) }
    ensures goes_on { GoesOn n m pages.new text.now (done.writes + done.erases)
        (read_line n m (done.writes + done.erases) (drop done.at text.now)).rest result }
{
    let step = done.writes + done.erases;
    let Some(told) = read_line(text, done.at, n, m, step) else {
        return Err(Fault::Line {
            refusal: Refusal::BadLine,
            line: step + 1,
        });
    };
    match told {
        Told::Write {
            block,
            page,
            mask,
            next,
        } => write_page(pages, m, block, page, mask, done, next),
        Told::Erase { block, next } => erase_block(pages, n * m, m, block, done, next),
        Told::End {
            writes,
            erases,
            next,
        } => {
            let counted = (writes == done.writes) & (erases == done.erases);
            end_turn(n, m, list, pages, next < text.len(), counted, step)
        }
    }
}
