// The step at a place, told to a program that drives the chip itself.
ghost use Rattle.std.specs.Prelude.{◌≡◌, IfOk};
ghost use Rattle.method.specs.Place.{operation_at};
ghost use Rattle.places.specs.inner.Place.{op_of};
ghost use Rattle.places.specs.Operation.{operation_answer, told_in, IsWithin};

use crate::place::{Op, Place, last_place};
use flash::refusal::Refusal;
use flash::sizes::Sizes;

// The step at a place of a move with these sizes.
pub fn operation(sizes: Sizes, place: usize) -> Result<Op, Refusal>
    ensures answer { told_in result ≡ operation_answer sizes place }
    ensures step { IfOk result (λ op. op ≡ op_of sizes (operation_at sizes place)) }
    ensures within { IfOk result (λ op. IsWithin sizes op) }
{
    if !sizes.in_range() {
        return Err(Refusal::BadSizes);
    }
    if last_place(sizes) < place {
        return Err(Refusal::BadPlace);
    }
    Ok(Place::new(sizes, place).operation(sizes))
}
