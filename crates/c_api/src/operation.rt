// The step at a place, for a C program that drives the chip.

ghost use Rattle.std.specs.Prelude.{◌≡◌};
ghost use Rattle.places.specs.Operation.{operation_answer};

use crate::sizes::sizes_of;
use places::operation::operation;
use places::place::Op;

#[unsafe(no_mangle)]
pub extern "C" fn mover_operation(
    n: u32,
    m: u32,
    s: u32,
    place: u32,
    kind: &mut u32,
    block: &mut u32,
    page: &mut u32,
    mark: &mut u32,
) -> u32
    ensures { record { number = result; kind = kind.new; block = block.new; page = page.new; mark = mark.new }
        ≡ operation_answer (record { n = n; m = m; p = 1; s = s }) place }
{
    // a page size in range, since no step depends on it
    match operation(sizes_of(n, m, 1, s), place as usize) {
        Ok(
            Op::Write {
                backward: _,
                block: filled,
                page: written,
                mark: letter,
            },
        ) => {
            *kind = 0;
            *block = filled as u32;
            *page = written as u32;
            *mark = u32::from(letter);
            0
        }
        Ok(Op::Erase { block: freed }) => {
            *kind = 1;
            *block = freed as u32;
            *page = 0;
            *mark = 0;
            0
        }
        Ok(Op::Done) => {
            *kind = 2;
            *block = 0;
            *page = 0;
            *mark = 0;
            0
        }
        Err(refusal) => {
            *kind = 0;
            *block = 0;
            *page = 0;
            *mark = 0;
            refusal.number()
        }
    }
}
