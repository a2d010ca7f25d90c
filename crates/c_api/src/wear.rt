// The record of erases as C lends it: four bytes a counter, the low one first; then the highest count alike, and a byte for its block.
ghost use Rattle.std.specs.Prelude.{◌≡◌, ◌+◌, ◌≤◌, length};
ghost use Rattle.flash.specs.Wear.{counter_count};
ghost use Rattle.c_api.specs.Wear.{spelled_at, spelling, wear_length, wear_of, counter_bytes, wear_bytes};

use flash::wear::{BLOCKS, Wear};

const COUNTER: usize = 4;

// Where the pair lies: the highest count, and its block.
const HIGHEST: usize = BLOCKS * COUNTER;

const BLOCK: usize = HIGHEST + COUNTER;

// The length of the record.
pub const WEAR: usize = BLOCK + 1;

// The counter that the four bytes at a position spell.
fn counter_at(bytes: &[u8], at: usize) -> u32
    requires { at + 4 ≤ length bytes.now }
    ensures { result ≡ spelled_at bytes.now at }
{
    u32::from_le_bytes([bytes[at], bytes[at + 1], bytes[at + 2], bytes[at + 3]])
}

pub fn decode_wear(bytes: &[u8]) -> Wear
    requires { length bytes.now ≡ wear_length }
    ensures value { result ≡ wear_of bytes.now }
    ensures result_value { wear_bytes result ≡ bytes.now }
{
    let mut counters = [0u32; BLOCKS];
    for (b, counter) in counters.iter_mut().enumerate() {
        *counter = counter_at(bytes, b * COUNTER);
    }
    Wear {
        counters,
        highest: counter_at(bytes, HIGHEST),
        block: bytes[BLOCK],
    }
}

// The four bytes of a counter.
fn spell(counter: u32, bytes: &mut [u8])
    requires { length bytes.old ≡ 4 }
    ensures { bytes.new ≡ spelling counter }
{
    bytes.copy_from_slice(&counter.to_le_bytes());
}

// The bytes of all counters.
fn encode_counters(wear: Wear, bytes: &mut [u8])
    requires { (length bytes.old ≡ 260) × (length wear.counters ≡ counter_count) }
    ensures { bytes.new ≡ counter_bytes wear }
{
    for (b, counter) in wear.counters.iter().enumerate() {
        let at = b * COUNTER;
        spell(*counter, &mut bytes[at..at + COUNTER]);
    }
}

pub fn encode_wear(wear: Wear, bytes: &mut [u8])
    requires { (length bytes.old ≡ wear_length) × (length wear.counters ≡ counter_count) }
    ensures { bytes.new ≡ wear_bytes wear }
{
    encode_counters(wear, &mut bytes[..HIGHEST]);
    spell(wear.highest, &mut bytes[HIGHEST..BLOCK]);
    bytes[BLOCK] = wear.block;
}
