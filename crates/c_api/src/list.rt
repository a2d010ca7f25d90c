// The list as C lends it.

ghost use Rattle.std.specs.Prelude.{◌≡◌, length};
ghost use Rattle.c_api.specs.Bytes.{entries_within, decoded_into};

// Room for the list of any sizes.
pub const MOST_ENTRIES: usize = 4096;

// Decodes a list, of two bytes an entry with the low one first, and returns how many entries it has: none where the bytes are
// no list or there is no room for it.
pub fn decode(bytes: &[u8], list: &mut [u16]) -> usize
    ensures { (result ≡ length (entries_within (length list.old) bytes.now))
        × (list.new ≡ decoded_into list.old bytes.now) }
{
    let count = bytes.len() / 2;
    if (bytes.len() % 2 == 1) | (list.len() < count) {
        return 0;
    }
    for i in 0..count {
        list[i] = u16::from_le_bytes([bytes[2 * i], bytes[2 * i + 1]]);
    }
    count
}
