// The exchange of two sets along an alternating path, whose pages have one and the other in turn. Pages, blocks and sets are numbers of 16
// bits here, widened where a slice is indexed.
ghost use Rattle.std.specs.Prelude.{◌≡◌, ◌+◌, ◌/◌, ◌<◌, length};
ghost use Rattle.split.specs.Rule.{destination};
ghost use Rattle.split.specs.inner.Cells.{row_of};
ghost use Rattle.split.specs.inner.Work.{Working, Blocked};

use crate::mask::{flip_both, has};
use crate::tables::{Tables, exchange, noted, swap};
use flash::quotient::Divisor;

// The block of a page number, counted from 0.
pub fn block_of(number: u16, divisor: Divisor) -> u16
    ensures { result ≡ number / divisor.by }
{
    divisor.quotient(number as usize) as u16
}

// The block that original k goes to.
pub fn target(list: &[u16], divisor: Divisor, k: u16) -> u16
    requires { k < length list.now }
    ensures { result ≡ row_of divisor.by list.now destination k }
{
    block_of(list[k as usize], divisor)
}

impl Tables {
    // Page k of the list has set a, and so has another page at its destination, where the path starts. Along the path a becomes
    // b at a destination and b becomes a at the next source: each block exchanges its two notes. Every source on it has a page of each set,
    // since it lies before that of page k; so the path ends at a destination, and only there do bits change.
    pub fn exchange_along_path(
        &mut self,
        list: &[u16],
        divisor: Divisor,
        k: u16,
        a: u16,
        b: u16,
        numbers: &mut [u8],
    )
        requires { Blocked divisor.by list.now k a b numbers.old self.old.targets self.old.homes self.old.destinations }
        ensures { Working divisor.by list.now (k + 1) numbers.new self.new.targets self.new.homes self.new.destinations }
    {
        let m = divisor.by as u16;
        let mut block = target(list, divisor, k);
        // A walk along a path: its tables say where it goes on.
        while has(self.destinations[block as usize], a) {
            let home = noted(&self.homes, a, block);
            let next = noted(&self.targets, b, home);
            exchange(&mut self.homes, block, a, b);
            exchange(&mut self.targets, home, a, b);
            swap(numbers, home * m, a, b);
            block = next;
        }
        exchange(&mut self.homes, block, b, a);
        flip_both(&mut self.destinations, block, b, a);
    }
}
