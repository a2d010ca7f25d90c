// A line is judged where it stands: its end is not looked for, since its first byte says where that must be.
ghost use Rattle.std.specs.Prelude.{◌≡◌, ◌≤◌, ◌<◌, length, MatchOption};
ghost use Rattle.intel_hex.specs.Reading.{is_type};
ghost use Rattle.intel_hex.specs.inner.Lines.{next_from, Framed, GoodIs};

use crate::text::Text;
use crate::weights::NO_DIGIT;
use crate::{LINE_FEED, SHORTEST};

const CARRIAGE_RETURN: u8 = 13;

const COLON: u8 = 58;

// The position behind a line whose digits end at a position, if it ends there.
pub fn next_from(text: &[u8], stop: usize) -> Option<usize>
    requires { stop < length text.now }
    ensures { MatchOption result (next_from text.now stop ≡ 0) (λ next. (next ≡ next_from text.now stop) × (1 ≤ next)) }
{
    if text[stop] == LINE_FEED {
        return Some(stop + 1);
    }
    if text[stop] != CARRIAGE_RETURN {
        return None;
    }
    let last = stop + 1;
    if last == text.len() {
        return None;
    }
    if text[last] == LINE_FEED {
        Some(stop + 2)
    } else {
        None
    }
}

fn is_type(kind: usize, address: usize, size: usize) -> bool
    ensures { result ≡ is_type kind address size }
{
    ((kind == 0) & (1 <= size))
        | ((kind == 1) & (address == 0) & (size == 0))
        | ((kind == 4) & (address == 0) & (size == 2))
}

impl Text<'_> {
    // Whether a record that is framed has nothing but digits, a sum that is a multiple of 256, and a known type.
    fn is_sound(&self, at: usize, size: usize) -> bool
        requires { Framed self.now.codes.now at size × (size ≤ 255) }
        ensures { GoodIs self.now.codes.now at result }
    {
        let sum = self.record_weight(at + 1, size);
        if NO_DIGIT <= sum {
            return false;
        }
        if sum % 256 != 0 {
            return false;
        }
        is_type(self.byte_at(at + 7), self.word_at(at + 3), size)
    }

    // Whether a record stands at a position that is not malformed.
    pub fn is_good(&self, at: usize) -> bool
        requires { at < length self.now.codes.now }
        ensures { GoodIs self.now.codes.now at result }
    {
        if self.codes.len() - at < SHORTEST {
            return false;
        }
        if self.codes[at] != COLON {
            return false;
        }
        let first = self.weight_from(at + 1, 1);
        if 255 < first {
            return false;
        }
        let size = first as usize;
        let stop = at + 11 + 2 * size;
        if self.codes.len() <= stop {
            return false;
        }
        if next_from(self.codes, stop).is_none() {
            return false;
        }
        self.is_sound(at, size)
    }
}
