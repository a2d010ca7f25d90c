// Bits that show which bytes of a span of 64 KiB are given, in words of 64.
ghost use Rattle.std.specs.Prelude.{◌≡◌, ◌+◌, ◌*◌, ◌≤◌, ◌<◌, length};
ghost use Rattle.intel_hex.specs.inner.Bits.{is_set, SetIs, MarkIs, LookIs};

use crate::SPAN;

pub const WORDS: usize = 1024;

fn is_set(words: &[u64; WORDS], b: usize) -> bool
    requires { b < 65536 }
    ensures { result ≡ is_set words.now b }
{
    let k = (b % 64) as u32;
    (words[b / 64] >> k) % 2 == 1
}

fn set(words: &mut [u64; WORDS], b: usize)
    requires { b < 65536 }
    ensures { SetIs words.old b words.new }
{
    let k = (b % 64) as u32;
    let i = b / 64;
    let word = words[i];
    words[i] = word | (1u64 << k);
}

// Sets bits, until one is met that was set.
fn mark(words: &mut [u64; WORDS], from: usize, count: usize) -> bool
    requires { from + count ≤ 65536 }
    ensures { MarkIs words.old from count words.new result }
{
    for i in from..from + count {
        if is_set(words, i) {
            return true;
        }
        set(words, i);
    }
    false
}

// Whether bytes at an offset, in the span with upper half w, were given before.
pub fn look(words: &mut [u64; WORDS], w: usize, half: usize, offset: usize, count: usize) -> bool
    requires half_low { half ≤ 65535 }
    requires fact { ((1 ≤ count → half * 65536 ≤ offset)) × ((1 ≤ count → offset + count ≤ half * 65536 + 65536)) }
    ensures { LookIs words.old w half offset count words.new result }
{
    if half != w {
        return false;
    }
    if count == 0 {
        return false;
    }
    mark(words, offset - w * SPAN, count)
}
