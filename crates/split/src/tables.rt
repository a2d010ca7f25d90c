// The tables of the path. Sets and blocks are given and taken in 16 bits, and widened where a cell is indexed; a note is stored in a byte.
ghost use Rattle.std.specs.Prelude.{◌≡◌, ◌+◌, ◌<◌, length, get_or, set as put};
ghost use Rattle.split.specs.inner.Cells.{cell_of, swapped_at};

// The most blocks, and the most sets.
pub const BLOCKS: usize = 64;

pub const SETS: usize = 64;

pub const CELLS: usize = SETS * BLOCKS;

// `targets` and `homes` are by set and block, and note of the page that has them its block at the other end: `targets` is by source block and tells
// destinations, `homes` is by destination block and tells sources. The blocks of a set lie together, so that a path stays among 128 cells of each.
#[derive(Drop)]
pub struct Tables {
    pub targets: [u8; CELLS],
    pub destinations: [u64; BLOCKS], // by block, which sets are used there; between the others, which 4,096 bytes apart would hold each other up
    pub homes: [u8; CELLS],
}

pub fn noted(table: &[u8; CELLS], set: u16, block: u16) -> u16
    requires { (set < 64) × (block < 64) }
    ensures { (result ≡ get_or table.now (cell_of set block) 0) × (result < 256) }
{
    u16::from(table[set as usize * BLOCKS + block as usize])
}

pub fn note(table: &mut [u8; CELLS], set: u16, block: u16, other: u16)
    requires { (set < 64) × (block < 64) × (other < 256) }
    ensures { table.new ≡ put table.old (cell_of set block) other }
{
    table[set as usize * BLOCKS + block as usize] = other as u8;
}

// Exchanges the notes of two sets at a block.
pub fn exchange(table: &mut [u8; CELLS], block: u16, a: u16, b: u16)
    requires { (block < 64) × (a < 64) × (b < 64) }
    ensures { table.new ≡ swapped_at table.old (cell_of a block) (cell_of b block) }
{
    let first = noted(table, a, block);
    let second = noted(table, b, block);
    note(table, a, block, second);
    note(table, b, block, first);
}

// Exchanges two bytes of the row that begins at `start`.
pub fn swap(bytes: &mut [u8], start: u16, first: u16, second: u16)
    requires { (start + first < length bytes.old) × (start + second < length bytes.old) }
    ensures { bytes.new ≡ swapped_at bytes.old (start + first) (start + second) }
{
    bytes.swap(
        start as usize + first as usize,
        start as usize + second as usize,
    );
}
