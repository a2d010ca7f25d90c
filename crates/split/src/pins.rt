// Pages that have to end where they lay.
ghost use Rattle.std.specs.Prelude.{◌≡◌, ◌≤◌, length};
ghost use Rattle.split.specs.Pins.{moves_pinned};

use flash::bytes::is_filled;

// Whether the list sends a pinned page elsewhere or drops it. Where none is pinned, as mostly, only the pins are looked at; else all pages
// are, without a branch and in numbers of 16 bits, so that vector instructions do it.
pub fn moves_pinned(pins: &[u8], list: &[u16]) -> bool
    requires { (length pins.now ≡ length list.now) × (length list.now ≤ 4096) }
    ensures { result ≡ moves_pinned pins.now list.now }
{
    if is_filled(pins, 0) {
        return false;
    }
    let mut moved = false;
    for (k, entry) in list.iter().enumerate() {
        moved |= (pins[k] != 0) & (*entry != k as u16);
    }
    moved
}
