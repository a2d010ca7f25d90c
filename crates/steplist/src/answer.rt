// The answer to an input.
ghost use Rattle.std.specs.Prelude.{◌≡◌, ◌≤◌, length};
ghost use Rattle.flash.specs.Geometry.{original_count};
ghost use Rattle.listing.specs.Area.{over, Written};
ghost use Rattle.listing.specs.Input.{request, within_limit};
ghost use Rattle.listing.specs.ReaderAnswers.{request_in};
ghost use Rattle.steplist.specs.Output.{listed, answered, output, Counts};
ghost use Rattle.steplist.specs.inner.Listing.{most_output};
ghost use Rattle.steplist.specs.inner.Given.{Asked, Readable, AcceptedInput, judged_list, judged_sets};

use crate::by_originals::put_method;
use crate::listed::put_listing;
use crate::rest::{put_marks, put_store};
use crate::unpinned::{MOST_ORIGINALS, split_unpinned};
use flash::sizes::Sizes;
use listing::fit::{fit, put};
use listing::input::{InputError, MOST_NUMBERS, limit, numbers_due, read};
use listing::lines::{put_refused, put_unreadable};
use split::drops::has_drop;

// Room for the longest output.
pub const MOST_OUTPUT: usize = 32768;

// The largest number that an entry of 16 bits holds.
const MOST_ENTRY: u32 = 65535;

// The most slots, with the spare's.
const MOST_SLOTS: usize = 72;

const MOST_PAGE: usize = 64;

const MOST_STORE: usize = 4608;

// Fills a store and its marks as they are at rest, and lists the move of an accepted request.
fn put_accepted(out: &mut [u8], sizes: Sizes, list: &[u16], sets: &[u8], originals: &[u32]) -> usize
    requires { AcceptedInput sizes list.now sets.now originals.now × (most_output ≤ length out.old) }
    ensures { Written (listed sizes list.now originals.now) out.old out.new result }
{
    let mut store = [0u8; MOST_STORE];
    let mut marks = [0u8; MOST_SLOTS];
    let mut work = [0u8; MOST_PAGE];
    let size = sizes.store_length();
    let slots = sizes.slot_count();
    let m = sizes.m;
    let p = sizes.p;
    let s = sizes.s;
    put_store(originals, m * p, &mut store[..size]);
    put_marks(m, s as u8, &mut marks[..slots]);
    put_listing(
        out,
        sizes,
        list,
        sets,
        &mut store[..size],
        &mut marks[..slots],
        &mut work[..p],
    )
}

// Lists the move of an accepted request in one form or the other. By originals no page may be dropped.
fn put_form(
    out: &mut [u8],
    named: bool,
    sizes: Sizes,
    list: &[u16],
    sets: &[u8],
    originals: &[u32],
) -> usize
    requires { AcceptedInput sizes list.now sets.now originals.now × (most_output ≤ length out.old) }
    ensures { Written (answered named (request sizes list.now originals.now)) out.old out.new result }
{
    if !named {
        return put_accepted(out, sizes, list, sets, originals);
    }
    if has_drop(list) {
        return put_refused(out, 0, 3);
    }
    put_method(out, sizes.n, sizes.m, list, sets)
}

// Judges and splits the list of a request, and lists its move. A number is judged before it is cut to 16 bits.
fn put_judged(
    out: &mut [u8],
    named: bool,
    sizes: Sizes,
    entries: &[u32],
    originals: &[u32],
    list: &mut [u16],
    sets: &mut [u8],
) -> usize
    requires { Readable sizes entries.now originals.now × (length list.old ≡ original_count sizes)
        × (length sets.old ≡ original_count sizes)
        × (most_output ≤ length out.old) }
    ensures written { Written (answered named (request sizes entries.now originals.now)) out.old out.new result }
    ensures list_after { (list.new ≡ judged_list entries.now list.old)
        × (sets.new ≡ judged_sets sizes entries.now sets.old) }
{
    if !fit(entries, MOST_ENTRY) {
        return put_refused(out, 0, 3);
    }
    put(entries, list);
    if let Err(_) = split_unpinned(sizes, list, sets) {
        return put_refused(out, 0, 3);
    }
    put_form(out, named, sizes, list, sets, originals)
}

// Answers a request whose numbers were read.
fn put_move(out: &mut [u8], named: bool, sizes: Sizes, numbers: &[u32; MOST_NUMBERS]) -> usize
    requires { Asked sizes numbers.now × (most_output ≤ length out.old) }
    ensures { Written (answered named (request_in numbers.now sizes)) out.old out.new result }
{
    let area: &[u32] = numbers;
    let mut list = [0u16; MOST_ORIGINALS];
    let mut sets = [0u8; MOST_ORIGINALS];
    let count = sizes.original_count();
    let due = numbers_due(count, sizes.p);
    put_judged(
        out,
        named,
        sizes,
        &area[..count],
        &area[count..due],
        &mut list[..count],
        &mut sets[..count],
    )
}

// Answers an input in one form or the other: the answer is written over the front of `out`, and its length is returned. The input's byte
// behind the limit, if it has one, is overwritten.
pub fn answer(named: bool, input: &mut [u8], out: &mut [u8; MOST_OUTPUT]) -> usize
    ensures written { Written (output named input.old) out.old out.new result }
    ensures counts { Counts result out.new }
    ensures input_after { input.new ≡ over (within_limit input.old) input.old }
{
    let mut numbers = [0u32; MOST_NUMBERS];
    let end = limit(input);
    match read(&input[..end], &mut numbers) {
        Err(InputError::Unreadable) => put_unreadable(out, 0),
        Err(InputError::Refused) => put_refused(out, 0, 1),
        Ok(sizes) => put_move(out, named, sizes, &numbers),
    }
}
