// The move of a request that no refusal fits.
ghost use Rattle.method.specs.Move.{move_of, AcceptedMove};

use flash::sizes::Sizes;

// Every page goes to a place of its own, and the sets are a split of the list: whoever makes the struct shows it.
#[derive(Clone, Copy)]
pub struct Accepted<'a> {
    pub sizes: Sizes,
    pub list: &'a [u16], // completed: no page is dropped in it
    pub sets: &'a [u8],
    ghost accepted: { AcceptedMove (move_of sizes list.now sets.now) },
}
