// The split rule. Pages get their sets in the order of their numbers, so that the blocks before a page's own have all sets, and its
// own has those below the page's number in it: that number is the lowest set unused there.
ghost use Rattle.std.specs.Prelude.{◌≡◌, ◌+◌, ◌*◌, ◌<◌, length};
ghost use Rattle.split.specs.Rule.{split_by_rule};
ghost use Rattle.split.specs.inner.Rows.{Accepted};
ghost use Rattle.split.specs.inner.Work.{Working};

use crate::inverse::invert_rows;
use crate::mask::{flip, has, lowest_free};
use crate::path::{block_of, target};
use crate::tables::{BLOCKS, CELLS, Tables, note};
use flash::quotient::Divisor;

impl Tables {
    // Gives page k its set.
    fn give(&mut self, list: &[u16], divisor: Divisor, k: u16, numbers: &mut [u8])
        requires working { Working divisor.by list.now k numbers.old self.old.targets self.old.homes self.old.destinations }
        requires inside { k < length list.now }
        ensures { Working divisor.by list.now (k + 1) numbers.new self.new.targets self.new.homes self.new.destinations }
    {
        let home = block_of(k, divisor);
        let block = target(list, divisor, k);
        let a = k - home * divisor.by as u16;
        let used = self.destinations[block as usize];
        numbers[k as usize] = a as u8;
        note(&mut self.targets, a, home, block);
        if has(used, a) {
            let b = lowest_free(used) as u16;
            note(&mut self.homes, b, block, home);
            flip(&mut self.destinations, block, b);
            self.exchange_along_path(list, divisor, k, a, b, numbers);
        } else {
            note(&mut self.homes, a, block, home);
            flip(&mut self.destinations, block, a);
        }
    }
}

// Fills the set bytes of a list that passed the check. Until all pages have their sets, the bytes of a source block tell of each set its
// page, by the number within the block.
pub fn fill(n: usize, m: usize, list: &[u16], sets: &mut [u8])
    requires { Accepted n m list.now × (length sets.old ≡ n * m) }
    ensures { sets.new ≡ split_by_rule n m list.now }
{
    let divisor = Divisor::new(m);
    let count = list.len() as u16;
    let mut tables = Tables {
        targets: [0; CELLS],
        destinations: [0; BLOCKS],
        homes: [0; CELLS],
    };
    for k in 0..count {
        tables.give(list, divisor, k, sets);
    }
    invert_rows(n, m, sets);
}
