// Number 5: whether store and marks are as a place has them.
ghost use Rattle.std.specs.Prelude.{◌≡◌, ◌-◌, ◌≤◌, eqb, length, get_or};
ghost use Rattle.flash.specs.Lists.{range, all, is_same};
ghost use Rattle.flash.specs.Geometry.{Bounds, slot_count, store_len};
ghost use Rattle.flash.specs.Chip.{erased};
ghost use Rattle.method.specs.Place.{last_place, marks_of};
ghost use Rattle.method.specs.Answers.{is_elsewhere};
ghost use Rattle.places.specs.inner.Place.{place_of};

use crate::place::{Place, last_place};
use flash::ERASED;
use flash::bytes::is_filled;
use flash::sizes::Sizes;

// Whether the bytes of a stretch are all this value.
fn stretch_is(bytes: &[u8], start: usize, end: usize, value: u8) -> bool
    requires { (start ≤ end) × (end ≤ length bytes.now) }
    ensures { result ≡ all (λ i. eqb (get_or bytes.now i erased) value) (range start (end - start)) }
{
    is_filled(&bytes[start..end], value)
}

// Whether the marks are those that the place has. They are four stretches: the blocks below the one that is being filled, its pages that
// are written, those that are not, and the blocks above.
fn marks_stand(sizes: Sizes, marks: &[u8], place: Place) -> bool
    requires { Bounds sizes × (place ≡ place_of sizes place.at) × (place.at ≤ last_place sizes) × (length marks.now ≡ slot_count sizes) }
    ensures { result ≡ is_same marks.now (marks_of sizes place.at) }
{
    let m = sizes.m;
    let block = place.block;
    let page = place.page;
    let first = block * m;
    let blank = first + page;
    let above = first + m;
    let written = if place.backward { 2 } else { 1 };
    let kept = if place.backward { 2 } else { 0 };
    stretch_is(marks, 0, first, sizes.letter_after(1))
        & stretch_is(marks, first, blank, sizes.letter_after(written))
        & stretch_is(marks, blank, above, ERASED)
        & stretch_is(marks, above, marks.len(), sizes.letter_after(kept))
}

// The three grounds of number 5. Where the marks stand, the slots marked 255 are one stretch too.
pub fn is_elsewhere(sizes: Sizes, store: &[u8], marks: &[u8], place: usize) -> bool
    requires { Bounds sizes × (length marks.now ≡ slot_count sizes) × (length store.now ≡ store_len sizes) }
    ensures { result ≡ is_elsewhere sizes (record { store = store.entry.now; marks = marks.now }) place }
{
    if last_place(sizes) < place {
        return true;
    }
    let here = Place::new(sizes, place);
    if !marks_stand(sizes, marks, here) {
        return true;
    }
    let m = sizes.m;
    let p = sizes.p;
    let block = here.block;
    let page = here.page;
    let first = block * m;
    !stretch_is(store, (first + page) * p, (first + m) * p, ERASED)
}
