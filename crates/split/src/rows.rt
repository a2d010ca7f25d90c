// The check of a list and its set bytes, with a table of the sets by destination. Nothing is tested on the way: sets are entered and bits
// gathered, and afterwards it is seen that none is missing. As many numbers as there are places meet no place twice if they meet each.
ghost use Rattle.std.specs.Prelude.{◌≡◌, cond, List, ℕ, ◌+◌, ◌*◌, ◌≤◌, ltb, length};
ghost use Rattle.flash.specs.Lists.{all};
ghost use Rattle.flash.specs.Refusals.{number_in};
ghost use Rattle.split.specs.OneToOne.{is_one_to_one};
ghost use Rattle.split.specs.Split.{is_split};
ghost use Rattle.split.specs.inner.Rows.{ByDestination, Entered, Bits, rows_have_each};

use crate::mask::{lowest_free, with_bit};
use flash::bytes::are_below;
use flash::refusal::Refusal;

// The places of the table.
const PLACES: usize = 4096;

// The sets are the numbers below this one, as many as a mask has bits.
const MOST_SETS: u8 = 64;

// What is entered is below this number, and NO_ORIGINAL, which stands where no original goes, is not.
const NO_BYTE: u8 = 128;

const NO_ORIGINAL: u8 = 255;

// Enters the sets of the originals from `start` to before `end` by destination; their bits.
fn enter_row(list: &[u16], sets: &[u8], start: usize, end: usize, table: &mut [u8]) -> u64
    requires sets_len { (length sets.now ≡ length list.now) × (start ≤ end) × (end ≤ length list.now) × (length table.old ≡ 4096) }
    requires entered { Entered list.now sets.now start table.old }
    ensures { Entered list.now sets.now end table.new × Bits sets.now start end result }
{
    let mut met = 0u64;
    for k in start..end {
        let set = sets[k];
        table[usize::from(list[k]) % PLACES] = set % NO_BYTE;
        met = with_bit(met, usize::from(set % MOST_SETS));
    }
    met
}

// Enters the sets of all originals. Answers whether those of each source block have each set, if the set bytes are sets.
pub fn sets_by_destination(n: usize, m: usize, list: &[u16], sets: &[u8], table: &mut [u8]) -> bool
    requires { (m ≤ 64) × (n * m ≤ 4096) × (length list.now ≡ n * m) × (length sets.now ≡ n * m) × (length table.old ≡ 4096) }
    ensures { Entered list.now sets.now (n * m) table.new × (result ≡ rows_have_each n m sets.now) }
{
    table[..n * m].fill(NO_ORIGINAL);
    let mut each = true;
    for i in 0..n {
        let start = i * m;
        let met = enter_row(list, sets, start, start + m, table);
        each &= m <= lowest_free(met);
    }
    each
}

// The bits of the bytes. They are gathered in two masks, so that one need not wait for the other.
fn bits(bytes: &[u8]) -> u64
    ensures { Bits bytes.now 0 (length bytes.now) result }
{
    let mut one = 0u64;
    let mut two = 0u64;
    let (pairs, rest) = bytes.as_chunks::<2>();
    for [first, second] in pairs {
        one = with_bit(one, usize::from(*first % MOST_SETS));
        two = with_bit(two, usize::from(*second % MOST_SETS));
    }
    for byte in rest {
        one = with_bit(one, usize::from(*byte % MOST_SETS));
    }
    one | two
}

// Whether each of the first n rows of m bytes has each set, if the bytes are sets.
fn rows_have_each(n: usize, m: usize, bytes: &[u8]) -> bool
    requires { (m ≤ 64) × (n * m ≤ length bytes.now) }
    ensures { result ≡ rows_have_each n m bytes.now }
{
    let mut each = true;
    for i in 0..n {
        let start = i * m;
        let met = bits(&bytes[start..start + m]);
        each &= m <= lowest_free(met);
    }
    each
}

fn are_places(list: &[u16]) -> bool
    ensures { result ≡ all (λ number. ltb number 4096) list.now }
{
    let mut small = true;
    for number in list {
        small &= usize::from(*number) < PLACES;
    }
    small
}

// Refuses as number 3 or 4. Else the table has the sets by destination.
pub fn sets_refusal(
    n: usize,
    m: usize,
    list: &[u16],
    sets: &[u8],
    table: &mut [u8],
) -> Result<(), Refusal>
    requires le_m { (1 ≤ m) × (n ≤ 64) × (m ≤ 64) }
    requires list_len { (length list.now ≡ n * m) × (length sets.now ≡ n * m) × (length table.old ≡ 4096) }
    ensures value { number_in result ≡ cond (is_one_to_one (n * m) list.now) (cond (is_split n m list.now sets.now) 0 4) 3 }
    ensures by_destination { number_in result ≡ 0 → ByDestination list.now sets.now table.new }
{
    let each = sets_by_destination(n, m, list, sets, table);
    if !(are_places(list) & are_below(&table[..n * m], NO_BYTE)) {
        return Err(Refusal::BadList);
    }
    if !(each & are_below(sets, MOST_SETS) & rows_have_each(n, m, table)) {
        return Err(Refusal::BadSplit);
    }
    Ok(())
}
