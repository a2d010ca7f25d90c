// A text with the weights of codes, and the bytes that it spells.
ghost use Rattle.std.specs.Prelude.{◌≡◌, ◌+◌, ◌*◌, ◌≤◌, length};
ghost use Rattle.intel_hex.specs.inner.Lines.{weight_from, Weighs, byte_from, word_from, AreDigits};

use crate::CHUNK;
use crate::codes::{others, total};
use crate::weights::{NO_DIGIT, Weights};

#[derive(Drop)]
pub struct Text<'a> {
    pub codes: &'a [u8],
    weights: Weights,
}

// What a chunk weighs, by vector instructions. Where a code is no digit that is not worked out: reading the codes by the table here too keeps
// the compiler from making these.
fn chunk_weight(codes: &[u8], from: usize) -> u32
    requires { from + 32 ≤ length codes.now }
    ensures { Weighs (weight_from codes.now from 16) result × (result ≤ 131072) }
{
    if others(codes, from) != 0 {
        return NO_DIGIT;
    }
    total(codes, from)
}

impl<'a> Text<'a> {
    pub fn new(codes: &'a [u8]) -> Self
        ensures { result.codes.now ≡ codes.now }
    {
        let weights = Weights::new();
        Text { codes, weights }
    }

    // What some bytes weigh, two codes each. One sum says whether all are digits and what their bytes come to, so that the loop has no branch.
    pub fn weight_from(&self, from: usize, count: usize) -> u32
        requires { (from + 2 * count ≤ length self.now.codes.now) × (count ≤ 260) }
        ensures { result ≡ weight_from self.now.codes.now from count }
    {
        let mut sum: u32 = 0;
        for i in 0..count {
            let at = from + 2 * i;
            sum += self.weights.of(self.codes[at]) * 16 + self.weights.of(self.codes[at + 1]);
        }
        sum
    }

    // What a record weighs behind its colon: its head, its bytes and its checksum.
    pub fn record_weight(&self, from: usize, size: usize) -> u32
        requires { (from + 2 * (5 + size) ≤ length self.now.codes.now) × (size ≤ 255) }
        ensures { Weighs (weight_from self.now.codes.now from (5 + size)) result }
    {
        if size != CHUNK {
            return self.weight_from(from, 5 + size);
        }
        let head = self.weight_from(from, 4);
        let bytes = chunk_weight(self.codes, from + 8);
        head + bytes + self.weight_from(from + 40, 1)
    }

    // A byte and a word of two bytes, once their codes are known to be digits.
    pub fn byte_at(&self, at: usize) -> usize
        requires { (at + 2 ≤ length self.now.codes.now) × AreDigits self.now.codes.now at 2 }
        ensures { (result ≡ byte_from self.now.codes.now at) × (result ≤ 255) }
    {
        self.weight_from(at, 1) as usize
    }

    pub fn word_at(&self, at: usize) -> usize
        requires { (at + 4 ≤ length self.now.codes.now) × AreDigits self.now.codes.now at 4 }
        ensures { (result ≡ word_from self.now.codes.now at) × (result ≤ 65535) }
    {
        self.byte_at(at) * 256 + self.byte_at(at + 2)
    }
}
