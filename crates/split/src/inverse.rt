// Rows of bytes turned into their inverses: what tells of each set its page becomes what tells of each page its set.
ghost use Rattle.std.specs.Prelude.{◌≡◌, ◌*◌, ◌≤◌, length};
ghost use Rattle.split.specs.inner.Inverse.{Permuted, Inverted, RowsPermuted, RowsInverted};

use crate::tables::SETS;

fn invert(row: &mut [u8])
    requires { (length row.old ≤ 64) × Permuted row.old }
    ensures { Inverted row.old row.new }
{
    let count = row.len();
    let mut inverse = [0u8; SETS];
    for (set, page) in row.iter().enumerate() {
        inverse[usize::from(*page)] = set as u8;
    }
    row.copy_from_slice(&inverse[..count]);
}

pub fn invert_rows(n: usize, m: usize, bytes: &mut [u8])
    requires { (m ≤ 64) × (length bytes.old ≡ n * m) × RowsPermuted n m bytes.old }
    ensures { RowsInverted n m bytes.old bytes.new }
{
    for i in 0..n {
        let start = i * m;
        let end = start + m;
        invert(&mut bytes[start..end]);
    }
}
