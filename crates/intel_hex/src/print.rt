// A record printed into a lent part, from a position on.
ghost use Rattle.std.specs.Prelude.{◌≡◌, [], ◌∷◌, ◌++◌, ◌+◌, ◌-◌, ◌*◌, ◌/◌, ◌%◌, ◌≤◌, ◌<◌, length, drop};
ghost use Rattle.flash.specs.Lists.{concat_map, total};
ghost use Rattle.listing.specs.Digits.{capitals, digit_of, hex};
ghost use Rattle.listing.specs.Lines.{Printed};
ghost use Rattle.intel_hex.specs.inner.Kinds.{code_of};
ghost use Rattle.intel_hex.specs.Records.{record_text};

use crate::LINE_FEED;
use crate::kind::Kind;
use listing::digits::put_text;

// Room for what stands in front of a checksum, 4 fields and 16 bytes, in whole words of 8: the loop over it is compiled to vector
// instructions.
const ROOM: usize = 24;

// Two for each byte of it.
const DIGITS: usize = 48;

fn digit_of(d: u8) -> u8
    requires { d < 16 }
    ensures { result ≡ digit_of capitals d }
{
    let zero = if d < 10 { 48 } else { 55 };
    zero + d
}

// What stands in front of the checksum is put into an area; behind it the area stays.
fn gather(area: &mut [u8; ROOM], kind: Kind, address: usize, bytes: &[u8])
    requires { (address < 65536) × (length bytes.now ≤ 16) }
    ensures { area.new ≡ length bytes.now ∷ address / 256 ∷ address % 256 ∷ code_of kind
        ∷ (bytes.now ++ drop (4 + length bytes.now) area.old) }
{
    let size = bytes.len();
    let count = size as u8;
    let high = (address / 256) as u8;
    let low = (address % 256) as u8;
    let end = 4 + size;
    area[0] = count;
    area[1] = high;
    area[2] = low;
    area[3] = kind.code();
    area[4..end].copy_from_slice(bytes);
}

// The digits of all bytes of an area, and their sum.
fn spell(area: &[u8; ROOM], digits: &mut [u8; DIGITS]) -> u32
    ensures { (digits.new ≡ concat_map (hex capitals) area.now) × (result ≡ total area.now) }
{
    let mut sum: u32 = 0;
    for (i, byte) in area.iter().enumerate() {
        digits[2 * i] = digit_of(*byte / 16);
        digits[2 * i + 1] = digit_of(*byte % 16);
        sum += u32::from(*byte);
    }
    sum
}

// The checksum of what was summed, and the line feed.
fn put_tail(text: &mut [u8], at: usize, sum: u32) -> usize
    requires { at + 3 ≤ length text.old }
    ensures { Printed (hex capitals ((256 - sum % 256) % 256) ++ (10 ∷ [])) text.old at text.new result }
{
    let check = ((256 - sum % 256) % 256) as u8;
    let high = digit_of(check / 16);
    let low = digit_of(check % 16);
    put_text(text, at, &[high, low, LINE_FEED])
}

pub fn put_record(text: &mut [u8], at: usize, kind: Kind, address: usize, bytes: &[u8]) -> usize
    requires { (address < 65536) × (length bytes.now ≤ 16) × (at + 2 * length bytes.now + 12 ≤ length text.old) }
    ensures { Printed (record_text (record { kind = code_of kind; address = address; bytes = bytes.now }))
        text.old at text.new result }
{
    let mut area = [0u8; ROOM];
    gather(&mut area, kind, address, bytes);
    let mut digits = [0u8; DIGITS];
    let sum = spell(&area, &mut digits);
    let count = 8 + 2 * bytes.len();
    let past_colon = put_text(text, at, b":");
    let past_digits = put_text(text, past_colon, &digits[..count]);
    put_tail(text, past_digits, sum)
}
