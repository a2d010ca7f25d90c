// A set of a move.
ghost use Rattle.std.specs.Prelude.{◌<◌};
ghost use Rattle.method.specs.Move.{move_of};
ghost use Rattle.walk.specs.inner.Rows.{PagesRow, SourcesRow};

use method::accepted::Accepted;

// With its rows: whoever makes the struct shows that they are the set's.
#[derive(Clone, Copy)]
pub struct Rows<'a> {
    pub moved: Accepted<'a>,
    pub set: usize,
    pub pages: &'a [u8], // the page of each block that is the set's
    pub sources: &'a [u8], // the block where the set's page that goes to a block comes from
    ghost set_in: { set < moved.sizes.m },
    ghost pages_row: { PagesRow (move_of moved.sizes moved.list.now moved.sets.now) set pages.now },
    ghost sources_row: { SourcesRow (move_of moved.sizes moved.list.now moved.sets.now) set sources.now },
}
