// A page that pages of slots add up to, of which there may be none, and a page of 255s where one is to be added.

ghost use Rattle.std.specs.Prelude.{◌≡◌, ◌≢◌, false, ℕ, ◌+◌, ◌*◌, ◌≤◌, ◌<◌, length, get_or, take};
ghost use Rattle.flash.specs.Lists.{set_part};
ghost use Rattle.flash.specs.PageSum.{written_bytes};
ghost use Rattle.flash.specs.inner.Totals.{total_page};

use crate::bytes::{count_written, invert};
use crate::slots::{sum_to_page, sum_to_slot};

// The pages of the slots. No page at all leaves zeros, each of which is a written byte.
fn stored_to_page(store: &[u8], p: usize, slots: &[usize], page: &mut [u8]) -> usize
    requires slots_in_bounds { (length slots.now ≤ 4096) × (length page.old ≡ p) }
    requires by_index { (j : ℕ) → j < length slots.now → get_or slots.now j 0 * p + p ≤ length store.now }
    ensures { (page.new ≡ total_page p false store.now slots.now)
        × (result ≡ written_bytes page.new) × (result ≤ p) }
{
    if slots.is_empty() {
        page.fill(0);
        return p;
    }
    sum_to_page(store, p, slots, page)
}

// The same, with 255s where `filler` says so; returns how many bytes of the page are not erased.
pub fn total_to_page(
    store: &[u8],
    p: usize,
    slots: &[usize],
    filler: bool,
    page: &mut [u8],
) -> usize
    requires slots_in_bounds { (length slots.now ≤ 4096) × (length page.old ≡ p) }
    requires by_index { (j : ℕ) → j < length slots.now → get_or slots.now j 0 * p + p ≤ length store.now }
    ensures { (page.new ≡ total_page p filler store.now slots.now)
        × (result ≡ written_bytes page.new) × (result ≤ p) }
{
    let written = stored_to_page(store, p, slots, page);
    if filler {
        invert(page);
        return count_written(page);
    }
    written
}

// The pages of the slots, straight into the page of a slot that is none of them.
fn stored_to_slot(store: &mut [u8], p: usize, slots: &[usize], to: usize) -> usize
    requires slots_in_bounds { (length slots.now ≤ 4096) × (to * p + p ≤ length store.old) }
    requires by_index { (j : ℕ) → j < length slots.now → get_or slots.now j 0 * p + p ≤ length store.old }
    requires by_index_2 { (j : ℕ) → j < length slots.now → get_or slots.now j 0 ≢ to }
    ensures { (store.new
        ≡ set_part p to store.old (total_page p false store.old slots.now))
        × (result ≡ written_bytes (total_page p false store.old slots.now)) × (result ≤ p) }
{
    if slots.is_empty() {
        let start = to * p;
        store[start..start + p].fill(0);
        return p;
    }
    sum_to_slot(store, p, slots, to)
}

// The same, with 255s where `filler` says so.
pub fn total_to_slot(store: &mut [u8], p: usize, slots: &[usize], filler: bool, to: usize) -> usize
    requires slots_in_bounds { (length slots.now ≤ 4096) × (to * p + p ≤ length store.old) }
    requires by_index { (j : ℕ) → j < length slots.now → get_or slots.now j 0 * p + p ≤ length store.old }
    requires by_index_2 { (j : ℕ) → j < length slots.now → get_or slots.now j 0 ≢ to }
    ensures { (store.new
        ≡ set_part p to store.old (total_page p filler store.old slots.now))
        × (result ≡ written_bytes (total_page p filler store.old slots.now)) × (result ≤ p) }
{
    let written = stored_to_slot(store, p, slots, to);
    if filler {
        let start = to * p;
        let end = start + p;
        invert(&mut store[start..end]);
        return count_written(&store[start..end]);
    }
    written
}
