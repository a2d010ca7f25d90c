// The page sum: of the pages of slots that stand in an array, four pages a pass. Nothing else sums pages. The last pass also counts what the
// sum programs. It makes a few bytes at a time in an array of its own, so that they are summed, counted in a byte and stored without leaving the
// registers; a counter for the whole page would be wider, and each byte would be widened to it.

ghost use Rattle.std.specs.Prelude.{◌≡◌, ◌≢◌, cond, [], ◌++◌, ℕ, ◌+◌, ◌*◌, ◌≤◌, ◌<◌, length, get_or, take, drop};
ghost use Rattle.std.specs.Int.Bits.{bit_xor};
ghost use Rattle.flash.specs.Lists.{part, set_part};
ghost use Rattle.flash.specs.PageSum.{◌⊕◌, sum, written_bytes};
ghost use Rattle.flash.specs.inner.Terms.{slot_at, terms_of, byte_sum, EachTerm, sum_at, sum_of, passed};

use crate::bytes::{FEW, count_few};

// The slots of one pass and how many of them count: the first stands for those that are missing.
#[derive(Clone, Copy)]
struct Terms {
    count: usize,
    one: usize,
    two: usize,
    three: usize,
    four: usize,
}

// The slot at a position, or the first behind the last.
fn slot_at(slots: &[usize], at: usize) -> usize
    requires { 1 ≤ length slots.now }
    ensures { result ≡ slot_at slots.now at }
{
    if at < slots.len() {
        slots[at]
    } else {
        slots[0]
    }
}

fn terms_of(slots: &[usize]) -> Terms
    requires { 1 ≤ length slots.now }
    ensures { result ≡ terms_of slots.now }
{
    Terms {
        count: slots.len(),
        one: slot_at(slots, 0),
        two: slot_at(slots, 1),
        three: slot_at(slots, 2),
        four: slot_at(slots, 3),
    }
}

// The sum of the first `terms` of four bytes. In a loop the tests are the same in every turn, so that the compiler makes a loop of vector
// instructions for each number of terms.
fn byte_sum(terms: usize, a: u8, b: u8, c: u8, d: u8) -> u8
    ensures { result ≡ byte_sum terms a b c d }
{
    if terms < 2 {
        return a;
    }
    if terms < 3 {
        return a ^ b;
    }
    if terms < 4 {
        return a ^ b ^ c;
    }
    a ^ b ^ c ^ d
}

// Byte i of the sum of the pages of the terms.
fn sum_at(store: &[u8], p: usize, terms: Terms, i: usize) -> u8
    requires { EachTerm (λ t. t * p + p ≤ length store.now) terms × (i < p) }
    ensures { result ≡ sum_at store.now p terms i }
{
    byte_sum(
        terms.count,
        store[terms.one * p + i],
        store[terms.two * p + i],
        store[terms.three * p + i],
        store[terms.four * p + i],
    )
}

// A byte, added to another or not.
fn added(add: bool, old: u8, byte: u8) -> u8
    ensures { result ≡ bit_xor (cond add old 0) byte }
{
    if add { old ^ byte } else { byte }
}

// A piece of the sum of the pages of the terms, from byte `at` on, is put over the piece or added to it.
fn sum_piece(store: &[u8], p: usize, terms: Terms, add: bool, at: usize, piece: &mut [u8])
    requires { EachTerm (λ t. t * p + p ≤ length store.now) terms × (at + length piece.old ≤ p) }
    ensures { piece.new
        ≡ cond add piece.old [] ⊕ take (length piece.old) (drop at (sum_of store.now p terms)) }
{
    for (j, byte) in piece.iter_mut().enumerate() {
        *byte = added(add, *byte, sum_at(store, p, terms, at + j));
    }
}

// The same within the store, over the page of a slot that is none of the terms, from byte `from` to its end.
fn sum_within(store: &mut [u8], p: usize, terms: Terms, add: bool, to: usize, from: usize)
    requires each_term { EachTerm (λ t. t * p + p ≤ length store.old) terms × EachTerm (λ t. t ≢ to) terms }
    requires p_in_bounds { (to * p + p ≤ length store.old) × (from ≤ p) }
    ensures { store.new ≡ set_part p to store.old (take from (part p to store.old)
        ++ drop from (passed store.old p terms add (part p to store.old))) }
{
    let target = to * p;
    for i in from..p {
        let sum = sum_at(store, p, terms, i);
        store[target + i] = added(add, store[target + i], sum);
    }
}

// Where a sum is to be added to what the page had, that is taken into the piece.
fn begin(adds: bool, old: &[u8], piece: &mut [u8])
    requires { length old.now ≡ length piece.old }
    ensures { piece.new ≡ cond adds old.now piece.old }
{
    if adds {
        piece.copy_from_slice(old);
    }
}

// A piece of what a pass makes of a page, from byte `at` on, where the page had the bytes `old`; returns how many bytes of it are not erased.
fn make_piece(
    store: &[u8],
    p: usize,
    terms: Terms,
    add: bool,
    at: usize,
    old: &[u8],
    piece: &mut [u8],
) -> u8
    requires each_term { EachTerm (λ t. t * p + p ≤ length store.now) terms × (at + length piece.old ≤ p) }
    requires len { (length old.now ≡ length piece.old) × (length piece.old ≤ 128) }
    ensures { (piece.new
        ≡ cond add old.now [] ⊕ take (length piece.old) (drop at (sum_of store.now p terms)))
        × (result ≡ written_bytes piece.new) }
{
    begin(add, old, piece);
    sum_piece(store, p, terms, add, at, piece);
    count_few(piece)
}

// A slot's page lies in the store that is read, where no other slice can be lent beside it. So what is summed into a page has a twin that sums into a
// slot, here and in totals.rt.

// The last pass into a page; returns how many bytes of what it leaves are not erased.
fn last_to_page(store: &[u8], p: usize, terms: Terms, add: bool, page: &mut [u8]) -> usize
    requires { EachTerm (λ t. t * p + p ≤ length store.now) terms × (length page.old ≡ p) }
    ensures { (page.new ≡ passed store.now p terms add page.old) × (result ≡ written_bytes page.new) }
{
    let mut written = 0;
    let mut i = 0;
    // by pieces of one fixed length, as in `count_written`
    while FEW <= p - i {
        let end = i + FEW;
        let mut piece = [0u8; FEW];
        written += usize::from(make_piece(store, p, terms, add, i, &page[i..end], &mut piece));
        page[i..end].copy_from_slice(&piece);
        i = end;
    }
    // most sizes leave no rest
    if i == p {
        return written;
    }
    sum_piece(store, p, terms, add, i, &mut page[i..p]);
    written + usize::from(count_few(&page[i..p]))
}

// The last pass into the page of a slot that is none of the terms.
fn last_to_slot(store: &mut [u8], p: usize, terms: Terms, add: bool, to: usize) -> usize
    requires { EachTerm (λ t. t * p + p ≤ length store.old) terms × EachTerm (λ t. t ≢ to) terms × (to * p + p ≤ length store.old) }
    ensures { (store.new
        ≡ set_part p to store.old (passed store.old p terms add (part p to store.old)))
        × (result ≡ written_bytes (passed store.old p terms add (part p to store.old))) }
{
    let target = to * p;
    let mut written = 0;
    let mut i = 0;
    // by pieces of one fixed length, as in `count_written`
    while FEW <= p - i {
        let start = target + i;
        let end = start + FEW;
        let mut piece = [0u8; FEW];
        let all = &store[..];
        written += usize::from(make_piece(all, p, terms, add, i, &all[start..end], &mut piece));
        store[start..end].copy_from_slice(&piece);
        i += FEW;
    }
    // most sizes leave no rest
    if i == p {
        return written;
    }
    sum_within(store, p, terms, add, to, i);
    written + usize::from(count_few(&store[target + i..target + p]))
}

// The sum of the pages of the slots goes into a page; returns how many of its bytes are not erased.
pub fn sum_to_page(store: &[u8], p: usize, slots: &[usize], page: &mut [u8]) -> usize
    requires le_slots { (1 ≤ length slots.now) × (length slots.now ≤ 4096) × (length page.old ≡ p) }
    requires by_index { (j : ℕ) → j < length slots.now → get_or slots.now j 0 * p + p ≤ length store.now }
    ensures { (page.new ≡ sum (λ t. part p t store.now) slots.now)
        × (result ≡ written_bytes page.new) × (result ≤ p) }
{
    let mut i = 0;
    // four slots a pass, and the last pass apart, which counts as well: `chunks(4)` would not tell which is the last
    while 4 < slots.len() - i {
        let terms = terms_of(&slots[i..]);
        sum_piece(store, p, terms, 0 < i, 0, page);
        i += 4;
    }
    let terms = terms_of(&slots[i..]);
    last_to_page(store, p, terms, 0 < i, page)
}

// The same sum goes straight into the page of a slot that is none of the summed ones.
pub fn sum_to_slot(store: &mut [u8], p: usize, slots: &[usize], to: usize) -> usize
    requires le_slots { (1 ≤ length slots.now) × (length slots.now ≤ 4096) × (to * p + p ≤ length store.old) }
    requires by_index { (j : ℕ) → j < length slots.now → get_or slots.now j 0 * p + p ≤ length store.old }
    requires by_index_2 { (j : ℕ) → j < length slots.now → get_or slots.now j 0 ≢ to }
    ensures { (store.new
        ≡ set_part p to store.old (sum (λ t. part p t store.old) slots.now))
        × (result ≡ written_bytes (sum (λ t. part p t store.old) slots.now)) × (result ≤ p) }
{
    let mut i = 0;
    // the last pass apart, as in `sum_to_page`
    while 4 < slots.len() - i {
        let terms = terms_of(&slots[i..]);
        sum_within(store, p, terms, 0 < i, to, 0);
        i += 4;
    }
    let terms = terms_of(&slots[i..]);
    last_to_slot(store, p, terms, 0 < i, to)
}
