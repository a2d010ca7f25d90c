// The first pass over a text: each record is judged, repeated bytes apart, and for each span of 64 KiB it is noted whether its records rise.
ghost use Rattle.std.specs.Prelude.{◌≡◌, ◌+◌, ◌≤◌, ◌<◌, length};
ghost use Rattle.intel_hex.specs.inner.Passes.{SurveyIs};
ghost use Rattle.intel_hex.specs.inner.Tops.{next_top, NoteIs};

use crate::text::Text;
use flash::refusal::Refusal;

// The spans of the largest image, and one behind it.
pub const SPANS: usize = 257;

// For an image of `size` bytes: whether the text is refused, repeated bytes apart, and the position of the record that decides it.
#[derive(Clone, Copy)]
pub struct Found {
    pub size: usize,
    pub verdict: Result<(), Refusal>,
    pub end: usize,
}

// Where what is given in a span ends, after a record, if its records rise.
fn next_top(top: Option<usize>, offset: usize, count: usize) -> Option<usize>
    requires { offset + count ≤ 16777216 }
    ensures { result ≡ next_top top offset count }
{
    if top? <= offset {
        Some(offset + count)
    } else {
        None
    }
}

fn note(tops: &mut [Option<usize>; SPANS], half: usize, offset: usize, count: usize)
    requires fits { offset + count ≤ 16777216 }
    requires half_bound { 1 ≤ count → half < 257 }
    ensures { NoteIs tops.old half offset count tops.new }
{
    if count == 0 {
        return;
    }
    tops[half] = next_top(tops[half], offset, count);
}

pub fn survey(text: &Text, size: usize, tops: &mut [Option<usize>; SPANS]) -> Found
    requires { size ≤ 16777216 }
    ensures { SurveyIs text.now.codes.now size result tops.new }
{
    let mut at = 0;
    let mut upper = 0;
    // A loop, since where the next record stands is known only once this one is judged.
    loop {
        if let Some(verdict) = text.judge_at(at, upper, size) {
            return Found {
                size,
                verdict,
                end: at,
            };
        }
        let half = text.half_at(at, upper);
        note(tops, half, text.offset_at(at, upper), text.count_at(at));
        upper = half;
        at = text.next_at(at);
    }
}
