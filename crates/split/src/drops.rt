// Pages that are thrown away: the list that is moved in place of the lent one, and bits that tell of them.
ghost use Rattle.std.specs.Prelude.{◌≡◌, false, ◌||◌, not, ℕ, ◌-◌, ◌≤◌, ◌<◌, eqb, length, replicate};
ghost use Rattle.flash.specs.Lists.{range, any, first};
ghost use Rattle.split.specs.OneToOne.{dropped, kept_entries, bad_list};
ghost use Rattle.split.specs.Drops.{is_dropped, completed};
ghost use Rattle.split.specs.inner.Mask.{is_marked};
ghost use Rattle.split.specs.inner.Dropping.{KeptMarked, DropsTold};

use crate::mask::{has, lowest_free, with_bit};

// The entry of a page that is dropped.
pub const DROPPED: u16 = 65535;

// The masks that have a bit for each page.
pub const MASKS: usize = 64;

const BITS: usize = u64::BITS as usize;

const PAGES: usize = MASKS * BITS;

// Whether the list drops a page. All entries are looked at without a branch, so that vector instructions do it.
pub fn has_drop(list: &[u16]) -> bool
    ensures { result ≡ any (eqb dropped) list.now }
{
    let mut found = false;
    for entry in list {
        found |= *entry == DROPPED;
    }
    found
}

pub fn is_marked(masks: &[u64], k: usize) -> bool
    requires { (length masks.now ≡ 64) × (k < 4096) }
    ensures { result ≡ is_marked masks.now k }
{
    has(masks[k / BITS], (k % BITS) as u16)
}

pub fn mark(masks: &mut [u64], k: usize)
    requires { (length masks.old ≡ 64) × (k < 4096) }
    ensures { (x : ℕ) → is_marked masks.new x ≡ (is_marked masks.old x || eqb x k) }
{
    masks[k / BITS] = with_bit(masks[k / BITS], k % BITS);
}

fn flip_all(masks: &mut [u64; MASKS])
    ensures { (x : ℕ) → x < 4096 → is_marked masks.new x ≡ not (is_marked masks.old x) }
{
    for mask in masks.iter_mut() {
        *mask = !*mask;
    }
}

// The first mark from `start` on, or 4,096. A mask without one is passed over at once.
fn next_mark(masks: &[u64; MASKS], start: usize) -> usize
    requires { start ≤ 4096 }
    ensures { result ≡ first (is_marked masks.now) (range start (4096 - start)) 4096 }
{
    let mut at = start;
    // The marks say how far the search jumps.
    while at < PAGES {
        let skipped = lowest_free(!(masks[at / BITS] >> (at % BITS)));
        if skipped < BITS {
            return at + skipped;
        }
        at = (at / BITS + 1) * BITS;
    }
    at
}

// Gives the dropped pages, ascending, the marked places, ascending, and marks the pages.
fn pair(list: &mut [u16], pages: &mut [u64; MASKS], places: &[u64; MASKS])
    requires list_len { (length list.old ≤ 4096) × (bad_list (length list.old) list.old ≡ false) }
    requires by_index { ((x : ℕ) → is_marked pages.old x ≡ false)
        × ((x : ℕ) → x < 4096 → is_marked places.now x ≡ not (any (eqb x) (kept_entries list.old))) }
    ensures list_after { list.new ≡ completed list.old }
    ensures by_index_2 { (x : ℕ) → is_marked pages.new x ≡ is_dropped list.old x }
{
    let mut place = 0;
    for (k, entry) in list.iter_mut().enumerate() {
        if *entry == DROPPED {
            place = next_mark(places, place);
            *entry = place as u16;
            mark(pages, k);
            place += 1;
        }
    }
}

// Completes a list that is not refused as 3, where `places` has the marks of its check; then the bits tell of the dropped pages and of the
// places that they get.
pub fn complete(list: &mut [u16], pages: &mut [u64; MASKS], places: &mut [u64; MASKS])
    requires list_len_bound { (length list.old ≤ 4096) × (bad_list (length list.old) list.old ≡ false) }
    requires pages_value { (pages.old ≡ replicate 64 0) × KeptMarked list.old places.old }
    ensures list_after { list.new ≡ completed list.old }
    ensures drops_told { DropsTold list.old pages.new places.new }
{
    flip_all(places);
    pair(list, pages, places);
}

// The same where the bits are not asked for. A list that drops no page is left as it is.
pub fn complete_list(list: &mut [u16], places: &mut [u64; MASKS])
    requires { (length list.old ≤ 4096) × (bad_list (length list.old) list.old ≡ false) × KeptMarked list.old places.old }
    ensures { list.new ≡ completed list.old }
{
    if has_drop(list) {
        let mut pages = [0u64; MASKS];
        complete(list, &mut pages, places);
    }
}
