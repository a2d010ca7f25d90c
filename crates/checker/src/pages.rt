// What the pages hold, as masks of originals; a blank page is 0.
ghost use Rattle.std.specs.Prelude.{◌≡◌, cond, eqb, ℕ, ◌+◌, ◌-◌, ◌*◌, ◌^◌, ◌≤◌, ◌<◌, ltb, length, get_or, replicate};
ghost use Rattle.flash.specs.Lists.{range, all};
ghost use Rattle.std.specs.List.{list_all};
ghost use Rattle.checker.specs.Pages.{resting_pages, is_blank, is_bad_write, block_erased, is_requested};
ghost use Rattle.checker.specs.inner.Pages.{are_placed};

// What slot t holds at rest.
fn resting(t: usize, m: usize) -> u64
    requires { t < m + 64 }
    ensures { result ≡ cond (ltb t m) 0 (2 ^ (t - m)) }
{
    if t < m { 0 } else { 1u64 << (t - m) }
}

// The spare is blank, and behind it is each original.
pub fn put_rest(pages: &mut [u64], n: usize, m: usize)
    requires { (n * m ≤ 64) × (length pages.old ≡ (n + 1) * m) }
    ensures { pages.new ≡ resting_pages n m }
{
    for (t, page) in pages.iter_mut().enumerate() {
        *page = resting(t, m);
    }
}

fn are_blank(part: &[u64]) -> bool
    ensures { result ≡ list_all (λ page. eqb page 0) part.now }
{
    part.iter().all(|page| *page == 0)
}

// Whether the page is not blank, or a higher one of its block is not.
pub fn is_bad_write(pages: &[u64], m: usize, block: usize, page: usize) -> bool
    requires { (block * m + m ≤ length pages.now) × (page < m) }
    ensures { result ≡ is_bad_write m pages.now block page }
{
    let first = block * m;
    !are_blank(&pages[first + page..first + m])
}

// All pages of a block become blank. Only its part is filled, so nothing beside it can change.
pub fn erase(pages: &mut [u64], m: usize, block: usize)
    requires { block * m + m ≤ length pages.old }
    ensures { pages.new ≡ block_erased m pages.old block }
{
    let start = block * m;
    pages[start..start + m].fill(0);
}

// Whether each original lies where the list sends it, alone.
fn are_placed(pages: &[u64], m: usize, list: &[u16]) -> bool
    requires le_m { (1 ≤ m) × (length list.now ≤ 64) }
    requires by_index { (k : ℕ) → k < length list.now → m + get_or list.now k 0 < length pages.now }
    ensures { result ≡ are_placed m list.now pages.now }
{
    for (k, entry) in list.iter().enumerate() {
        let t = m + usize::from(*entry);
        if pages[t] != 1u64 << k {
            return false;
        }
    }
    true
}

fn is_spare_blank(pages: &[u64], m: usize) -> bool
    requires { m ≤ length pages.now }
    ensures { result ≡ all (is_blank pages.now) (range 0 m) }
{
    are_blank(&pages[..m])
}

// Whether the pages are as the list asks.
pub fn is_requested(pages: &[u64], m: usize, list: &[u16]) -> bool
    requires le_m { (1 ≤ m) × (m ≤ length pages.now) × (length list.now ≤ 64) }
    requires by_index { (k : ℕ) → k < length list.now → m + get_or list.now k 0 < length pages.now }
    ensures { result ≡ is_requested m list.now pages.now }
{
    are_placed(pages, m, list) && is_spare_blank(pages, m)
}
