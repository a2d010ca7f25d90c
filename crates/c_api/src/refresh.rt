// The call that makes the pair of the highest count afresh, for C.

ghost use Rattle.std.specs.Prelude.{◌≡◌};
ghost use Rattle.c_api.specs.Exports.{refresh_of_bytes};

use crate::wear::{WEAR, decode_wear, encode_wear};
use flash::refusal::Refusal;

#[unsafe(no_mangle)]
pub extern "C" fn mover_wear_refresh(wear: &mut [u8]) -> u32
    ensures { record { number = result; wear = wear.new } ≡ refresh_of_bytes wear.old }
{
    if wear.len() != WEAR {
        return Refusal::BadLength.number();
    }
    let fresh = decode_wear(wear).refresh();
    encode_wear(fresh, wear);
    0
}
