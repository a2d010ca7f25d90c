// The last pass over a text that has no fault: its bytes are put into the image.
ghost use Rattle.std.specs.Prelude.{◌≡◌, ◌+◌, ◌*◌, ◌≤◌, ◌<◌, length};
ghost use Rattle.flash.specs.Refusals.{number_in};
ghost use Rattle.intel_hex.specs.Reading.{bytes_of};
ghost use Rattle.intel_hex.specs.inner.Lines.{AreDigits, bytes_from, put_from};
ghost use Rattle.intel_hex.specs.inner.Passes.{judged_by, nowhere, Walk};

use crate::CHUNK;
use crate::codes::byte_of;
use crate::survey::Found;
use crate::text::Text;
use flash::ERASED;

// The bytes that two digits each spell become those of a part.
fn put_bytes(text: &[u8], from: usize, part: &mut [u8])
    requires { (from + 2 * length part.old ≤ length text.now) × AreDigits text.now from (2 * length part.old) }
    ensures { part.new ≡ bytes_from text.now from (length part.old) }
{
    for (i, byte) in part.iter_mut().enumerate() {
        let at = from + 2 * i;
        *byte = byte_of(text[at], text[at + 1]);
    }
}

// A chunk is gathered before it is put: no byte put could then be one yet to be read, and both loops become vector instructions.
fn put_chunk(text: &[u8], from: usize, image: &mut [u8], offset: usize)
    requires { (from + 32 ≤ length text.now) × AreDigits text.now from 32 × (offset + 16 ≤ length image.old) }
    ensures { image.new ≡ put_from text.now from 16 image.old offset }
{
    let mut bytes = [0u8; CHUNK];
    put_bytes(text, from, &mut bytes);
    let end = offset + CHUNK;
    image[offset..end].copy_from_slice(&bytes);
}

fn put_rest(text: &[u8], from: usize, count: usize, image: &mut [u8], offset: usize)
    requires { (from + 2 * count ≤ length text.now) × AreDigits text.now from (2 * count) × (offset + count ≤ length image.old) }
    ensures { image.new ≡ put_from text.now from count image.old offset }
{
    let end = offset + count;
    put_bytes(text, from, &mut image[offset..end]);
}

// The bytes of a record are put at an offset.
fn put(text: &[u8], from: usize, count: usize, image: &mut [u8], offset: usize)
    requires { (from + 2 * count ≤ length text.now) × AreDigits text.now from (2 * count) × (offset + count ≤ length image.old) }
    ensures { image.new ≡ put_from text.now from count image.old offset }
{
    let whole = count / CHUNK;
    for chunk in 0..whole {
        let i = chunk * CHUNK;
        put_chunk(text, from + 2 * i, image, offset + i);
    }
    let i = whole * CHUNK;
    put_rest(text, from + 2 * i, count - i, image, offset + i);
}

// All bytes are put where they go; the others are as an erase leaves them. A head is read before its bytes are put: behind that the compiler
// would have it read again, lest the bytes were put over it.
pub fn put_all(text: &Text, found: Found, image: &mut [u8])
    requires walk { Walk text.now.codes.now found 0 0 }
    requires number_value { (number_in found.verdict ≡ 0) × (length image.old ≡ found.size) }
    ensures { image.new ≡ bytes_of (judged_by nowhere found.size text.now.codes.now) }
{
    image.fill(ERASED);
    let mut at = 0;
    let mut upper = 0;
    // A cursor, since where the next record stands is read in this one.
    while at < found.end {
        let count = text.count_at(at);
        let offset = text.offset_at(at, upper);
        let half = text.half_at(at, upper);
        let next = text.next_at(at);
        put(text.codes, at + 9, count, image, offset);
        upper = half;
        at = next;
    }
}
