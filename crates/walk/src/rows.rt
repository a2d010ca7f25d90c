// The rows of a set, and the tables of all sets: the page of each block that is the set's, and the block where the page that goes
// to a block comes from.
ghost use Rattle.std.specs.Prelude.{◌≡◌, ◌+◌, ◌-◌, ◌*◌, ◌<◌, length, take, drop};
ghost use Rattle.method.specs.inner.MoveIn.{move_in};
ghost use Rattle.walk.specs.inner.Rows.{row_length, table_length, PagesRow, SourcesRow, pages_by, sources_by};

use flash::bytes::position;
use flash::quotient::Divisor;
use method::accepted::Accepted;

// The blocks of a row, and the entries of a table with a row for each set.
pub const ROW: usize = 64;

pub const TABLE: usize = 4096;

// The table of pages. Originals are taken by block and page, as a division costs more.
pub fn pages_table(moved: Accepted, pages: &mut [u8; TABLE])
    requires { length pages.old ≡ table_length }
    ensures { let M = moved.entry in
        pages.new ≡ pages_by M.sizes.m M.sets.now (length M.sets.now) pages.old }
{
    let m = moved.sizes.m;
    for block in 0..moved.sizes.n {
        for page in 0..m {
            let set = usize::from(moved.sets[block * m + page]);
            pages[set * ROW + block] = page as u8;
        }
    }
}

// The table of sources.
pub fn sources_table(moved: Accepted, sources: &mut [u8])
    requires { length sources.old ≡ table_length }
    ensures { let M = moved.entry in
        sources.new ≡ sources_by M.sizes.m M.list.now M.sets.now (length M.sets.now) sources.old }
{
    let m = moved.sizes.m;
    let divisor = Divisor::new(m);
    for block in 0..moved.sizes.n {
        for page in 0..m {
            let k = block * m + page;
            let target = divisor.quotient(usize::from(moved.list[k]));
            sources[usize::from(moved.sets[k]) * ROW + target] = (block + 1) as u8;
        }
    }
}

// The row of a set in a table.
pub fn row(table: &[u8], set: usize) -> &[u8]
    requires { (set < 64) × (length table.now ≡ table_length) }
    ensures { result.now ≡ take (set * row_length + row_length - set * row_length) (drop (set * row_length) table.now) }
{
    let start = set * ROW;
    let end = start + ROW;
    &table[start..end]
}

// The rows of one set, which has one original in each block.
pub fn set_rows(moved: Accepted, set: usize, pages: &mut [u8; ROW], sources: &mut [u8; ROW])
    requires { (set < moved.sizes.m) × (length pages.old ≡ row_length) × (length sources.old ≡ row_length) }
    ensures { PagesRow (move_in moved.entry) set pages.new × SourcesRow (move_in moved.entry) set sources.new }
{
    let m = moved.sizes.m;
    let divisor = Divisor::new(m);
    for block in 0..moved.sizes.n {
        let start = block * m;
        let page = position(&moved.sets[start..start + m], set as u8);
        pages[block] = page;
        let target = divisor.quotient(usize::from(moved.list[start + usize::from(page)]));
        sources[target] = (block + 1) as u8;
    }
}
