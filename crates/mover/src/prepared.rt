// What the steps of a run are lent and do not change.
ghost use Rattle.std.specs.Prelude.{◌≡◌};
ghost use Rattle.std.specs.Option.{ForSome};
ghost use Rattle.method.specs.Move.{move_of};
ghost use Rattle.walk.specs.inner.Rows.{PagesTable};
ghost use Rattle.mover.specs.inner.Steps.{DropsIn};

use flash::quotient::Divisor;
use method::accepted::Accepted;
use split::drops::MASKS;

#[derive(Clone, Copy)]
pub struct Prepared<'a> {
    pub moved: Accepted<'a>,
    pub divisor: Divisor,
    pub pages: Option<&'a [u8]>, // a table; none where few steps are taken, and the rows of a set are filled when a page of it is written
    pub drops: &'a [u64; MASKS], // the pages that are dropped
    pub places: &'a [u64; MASKS], // and where they go
    ghost by_pages: { divisor.by ≡ moved.sizes.m },
    ghost pages_tell: { ForSome pages (λ table. PagesTable (move_of moved.sizes moved.list.now moved.sets.now) table.now) },
    ghost drops_in: { DropsIn (move_of moved.sizes moved.list.now moved.sets.now) drops.now places.now },
}
