// The writer's text of an image.
ghost use Rattle.std.specs.Prelude.{◌≡◌, ◌+◌, ◌-◌, ◌*◌, ◌/◌, ◌≤◌, ◌<◌, length};
ghost use Rattle.listing.specs.Lines.{Printed};
ghost use Rattle.intel_hex.specs.Writing.{upper_at, records_at, records_from, short_records, record_count, text_of, hex_text, hex_length};

use crate::kind::Kind;
use crate::print::put_record;
use crate::{CHUNK, SHORTEST, SPAN};

// The codes of a record of type 04, with its line feed.
const UPPER: usize = 16;

// The records of a span.
const CHUNKS: usize = 4096;

// How many spans of 64 KiB follow the first.
fn later_spans(size: usize) -> usize
    ensures { result ≡ (size - 1) / 65536 }
{
    if size == 0 { 0 } else { (size - 1) / SPAN }
}

pub fn length_of(size: usize) -> usize
    requires { size ≤ 16777216 }
    ensures { result ≡ hex_length size }
{
    SHORTEST * ((size + 15) / CHUNK) + 2 * size + UPPER * later_spans(size) + SHORTEST
}

// The record of type 04 in front of data record i, if the upper half changes there.
fn put_upper(text: &mut [u8], at: usize, i: usize) -> usize
    requires { (i < 1048576) × (at + length (text_of (upper_at i)) ≤ length text.old) }
    ensures { Printed (text_of (upper_at i)) text.old at text.new result }
{
    if (i == 0) | (i % CHUNKS != 0) {
        return at;
    }
    let high = (i / CHUNKS / 256) as u8;
    let low = (i / CHUNKS % 256) as u8;
    put_record(text, at, Kind::Upper, 0, &[high, low])
}

// Data record i, of 16 bytes, behind its record of type 04. The length is a constant, so that the loops within are unrolled.
fn put_16(image: &[u8], i: usize, text: &mut [u8], at: usize) -> usize
    requires image_len_bound { (length image.now ≤ 16777216) × (i * 16 + 16 ≤ length image.now) }
    requires i_in_bounds { at + length (text_of (records_at image.now i)) ≤ length text.old }
    ensures { Printed (text_of (records_at image.now i)) text.old at text.new result }
{
    let start = i * CHUNK;
    let next = put_upper(text, at, i);
    let bytes = &image[start..start + CHUNK];
    put_record(text, next, Kind::Data, start % SPAN, bytes)
}

// The last data record, if it is shorter.
fn put_last(image: &[u8], text: &mut [u8], at: usize) -> usize
    requires image_len_bound { length image.now ≤ 16777216 }
    requires image_in_bounds { at + length (text_of (short_records image.now)) ≤ length text.old }
    ensures { Printed (text_of (short_records image.now)) text.old at text.new result }
{
    if image.len() % CHUNK == 0 {
        return at;
    }
    let i = image.len() / CHUNK;
    let start = i * CHUNK;
    let next = put_upper(text, at, i);
    put_record(text, next, Kind::Data, start % SPAN, &image[start..])
}

fn put_data(image: &[u8], text: &mut [u8]) -> usize
    requires { (length image.now ≤ 16777216) × (hex_length (length image.now) ≤ length text.old) }
    ensures { Printed (text_of (records_from image.now 0 (record_count (length image.now))))
        text.old 0 text.new result }
{
    let mut next = 0;
    for i in 0..image.len() / CHUNK {
        next = put_16(image, i, text, next);
    }
    put_last(image, text, next)
}

pub fn put_image(image: &[u8], text: &mut [u8])
    requires { (length image.now ≤ 16777216) × (length text.old ≡ hex_length (length image.now)) }
    ensures { text.new ≡ hex_text image.now }
{
    let next = put_data(image, text);
    put_record(text, next, Kind::End, 0, b"");
}
