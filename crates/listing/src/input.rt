// What the input asks for.
ghost use Rattle.std.specs.Prelude.{cond, ◌≡◌, [], ◌+◌, ◌*◌, ◌≤◌, eqb, length, take, drop};
ghost use Rattle.std.proofs.Math.Option.{none, some};
ghost use Rattle.listing.specs.Area.{over};
ghost use Rattle.listing.specs.Numbers.{numbers_in, taken, numbers_met};
ghost use Rattle.listing.specs.ReaderAnswers.{filled_as, asked_as};
ghost use Rattle.listing.specs.Input.{is_allowed, exactly, input_of, numbers_put, within_limit};

use crate::fit::fit;
use crate::number::{Word, number};
use flash::sizes::Sizes;

pub const INPUT_LIMIT: usize = 4096;

// The numbers due for the largest sizes: 64 entries and 64 × 64 bytes.
pub const MOST_NUMBERS: usize = 4160;

// The area is filled with the numbers from a position on. Answers the position behind the last, or None where there are too few
// or a word is no number.
fn fill(text: &[u8], from: usize, area: &mut [u32]) -> Option<usize>
    ensures result_after { filled_as text.now area.new result
        ≡ taken [] (length area.old) (numbers_in (drop from text.now)) }
    ensures area_after { area.new ≡ over (numbers_met (length area.old) (numbers_in (drop from text.now)))
        area.old }
{
    let mut at = from;
    for cell in area.iter_mut() {
        let Word::Number { value, next } = number(text, at) else {
            return None;
        };
        *cell = value;
        at = next;
    }
    Some(at)
}

// The program's own limits.
fn is_allowed(sizes: Sizes) -> bool
    ensures { result ≡ is_allowed sizes }
{
    (1 <= sizes.n)
        & (sizes.n <= 8)
        & (1 <= sizes.m)
        & (sizes.m <= 8)
        & (1 <= sizes.p)
        & (sizes.p <= 64)
        & (sizes.s < 3)
}

// How many numbers follow the sizes: the entries, and p bytes for each.
pub fn numbers_due(count: usize, p: usize) -> usize
    requires { (count ≤ 64) × (p ≤ 64) }
    ensures { (result ≡ count + count * p) × (result ≤ 4160) }
{
    count + count * p
}

fn is_end(text: &[u8], at: usize) -> bool
    ensures { result ≡ eqb (length (numbers_in (drop at text.now))) 0 }
{
    matches!(number(text, at), Word::End)
}

// Whether exactly the numbers due for `count` originals stand from a position on, bytes to 255. They are put into `numbers`.
fn read_numbers(text: &[u8], from: usize, count: usize, p: usize, numbers: &mut [u32]) -> bool
    requires { (count ≤ 64) × (p ≤ 64) × (4160 ≤ length numbers.old) }
    ensures none_after { cond result (some (take (count + count * p) numbers.new)) none
        ≡ exactly count (taken [] (count + count * p) (numbers_in (drop from text.now))) }
    ensures numbers_after { numbers.new ≡ over (numbers_met (count + count * p) (numbers_in (drop from text.now)))
        numbers.old }
{
    let due = numbers_due(count, p);
    let Some(next) = fill(text, from, &mut numbers[..due]) else {
        return false;
    };
    fit(&numbers[count..due], 255) && is_end(text, next)
}

// Why an input asks for no move.
#[derive(Clone, Copy)]
pub enum InputError {
    Unreadable,
    // `refused 1`
    Refused,
}

// Reads the input: the four sizes, and the numbers due behind them. The list's entries and then the bytes are put into the lent area.
pub fn read(text: &[u8], numbers: &mut [u32; MOST_NUMBERS]) -> Result<Sizes, InputError>
    ensures result_after { asked_as numbers.new result ≡ input_of text.now }
    ensures numbers_after { numbers.new ≡ over (numbers_put text.now) numbers.old }
{
    let mut four = [0u32; 4];
    let Some(next) = fill(text, 0, &mut four) else {
        return Err(InputError::Unreadable);
    };
    let sizes = Sizes {
        n: four[0] as usize,
        m: four[1] as usize,
        p: four[2] as usize,
        s: four[3] as usize,
    };
    if !is_allowed(sizes) {
        return Err(InputError::Refused);
    }
    if read_numbers(text, next, sizes.original_count(), sizes.p, numbers) {
        Ok(sizes)
    } else {
        Err(InputError::Unreadable)
    }
}

// What lies beyond the limit becomes one byte that no number has. Answers the length of what is to be read.
pub fn limit(input: &mut [u8]) -> usize
    ensures { (result ≡ length (within_limit input.old))
        × (input.new ≡ over (within_limit input.old) input.old) }
{
    if input.len() <= INPUT_LIMIT {
        return input.len();
    }
    input[INPUT_LIMIT] = 0;
    INPUT_LIMIT + 1
}
