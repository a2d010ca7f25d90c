// An image from its text.
ghost use Rattle.std.specs.Prelude.{◌≡◌, ◌≤◌, eqb, length, IsSome};
ghost use Rattle.flash.specs.Refusals.{number_in};
ghost use Rattle.intel_hex.specs.Reading.{Read, number_of};
ghost use Rattle.intel_hex.specs.inner.Passes.{judged_by, only_in, Walk, SurveyIs, SpanIs, RepeatsIs};

use crate::SPAN;
use crate::bits::{WORDS, look};
use crate::put::put_all;
use crate::survey::{Found, SPANS, survey};
use crate::text::Text;
use flash::refusal::Refusal;

// Whether records before the end of a survey give a byte of the span with upper half w twice.
fn repeats_in(text: &Text, found: Found, w: usize) -> bool
    requires { Walk text.now.codes.now found 0 0 }
    ensures { SpanIs text.now.codes.now found w result }
{
    let mut words = [0u64; WORDS];
    let mut at = 0;
    let mut upper = 0;
    // A cursor, since where the next record stands is read in this one.
    while at < found.end {
        let half = text.half_at(at, upper);
        let offset = text.offset_at(at, upper);
        if look(&mut words, w, half, offset, text.count_at(at)) {
            return true;
        }
        upper = half;
        at = text.next_at(at);
    }
    false
}

// The same; a span whose records rise needs no pass.
fn span_repeats(text: &Text, found: Found, w: usize, top: Option<usize>) -> bool
    requires walk { Walk text.now.codes.now found 0 0 }
    requires rising { IsSome top → number_of (judged_by (only_in w) found.size text.now.codes.now) ≡ number_in found.verdict }
    ensures { SpanIs text.now.codes.now found w result }
{
    if top.is_some() {
        return false;
    }
    repeats_in(text, found, w)
}

// Whether a verdict is that which a byte given twice has too.
fn is_bad_text(verdict: Result<(), Refusal>) -> bool
    ensures { result ≡ eqb (number_in verdict) 10 }
{
    matches!(verdict, Err(Refusal::BadText))
}

// Whether a byte is given twice before any other fault, each span looked at by itself.
fn repeats(text: &Text, found: Found, tops: &[Option<usize>; SPANS]) -> bool
    requires sizes { found.size ≤ 16777216 }
    requires survey_is { SurveyIs text.now.codes.now found.size found tops.now }
    ensures { RepeatsIs text.now.codes.now found.size result }
{
    if is_bad_text(found.verdict) {
        return true;
    }
    let spans = found.size / SPAN + 1;
    for (w, top) in tops[..spans].iter().enumerate() {
        if span_repeats(text, found, w, *top) {
            return true;
        }
    }
    false
}

// Reads a text into an image, which stays as it was where the text is refused.
pub fn read(text: &[u8], image: &mut [u8]) -> Result<(), Refusal>
    requires { length image.old ≤ 16777216 }
    ensures { Read text.now image.old (number_in result) image.new }
{
    let text = Text::new(text);
    let mut tops = [Some(0usize); SPANS];
    let found = survey(&text, image.len(), &mut tops);
    if repeats(&text, found, &tops) {
        return Err(Refusal::BadText);
    }
    found.verdict?;
    put_all(&text, found, image);
    Ok(())
}
