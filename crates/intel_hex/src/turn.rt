// One turn of a pass over a text: the record at a position is judged, or was judged before and is read by its head alone.
ghost use Rattle.std.specs.Prelude.{◌≡◌, ◌≤◌, length, MatchOption};
ghost use Rattle.flash.specs.Refusals.{number_in};
ghost use Rattle.intel_hex.specs.inner.Kinds.{code_of};
ghost use Rattle.intel_hex.specs.inner.Lines.{kind_at, Good};
ghost use Rattle.intel_hex.specs.inner.Passes.{half_at, offset_at, count_at, next_at, Stops, Steps};

use crate::SPAN;
use crate::kind::Kind;
use crate::line::next_from;
use crate::text::Text;
use flash::refusal::Refusal;

impl Text<'_> {
    // The type of a record that is not malformed, so that it has one of the three.
    fn kind_at(&self, at: usize) -> Kind
        requires { Good self.now.codes.now at }
        ensures { code_of result ≡ kind_at self.now.codes.now at }
    {
        match self.byte_at(at + 7) {
            0 => Kind::Data,
            1 => Kind::End,
            _ => Kind::Upper,
        }
    }

    // The upper half of addresses behind a record.
    pub fn half_at(&self, at: usize, upper: usize) -> usize
        requires { Good self.now.codes.now at }
        ensures { result ≡ half_at self.now.codes.now at upper }
    {
        match self.kind_at(at) {
            Kind::Upper => self.word_at(at + 9),
            Kind::Data | Kind::End => upper,
        }
    }

    // Where the bytes of a record go, and how many they are: none of type 04.
    pub fn offset_at(&self, at: usize, upper: usize) -> usize
        requires { Good self.now.codes.now at × (upper ≤ 65535) }
        ensures { result ≡ offset_at self.now.codes.now at upper }
    {
        match self.kind_at(at) {
            Kind::Upper => 0,
            Kind::Data | Kind::End => upper * SPAN + self.word_at(at + 3),
        }
    }

    pub fn count_at(&self, at: usize) -> usize
        requires { Good self.now.codes.now at }
        ensures { result ≡ count_at self.now.codes.now at }
    {
        match self.kind_at(at) {
            Kind::Upper => 0,
            Kind::Data | Kind::End => self.byte_at(at + 1),
        }
    }

    pub fn next_at(&self, at: usize) -> usize
        requires { Good self.now.codes.now at }
        ensures { result ≡ next_at self.now.codes.now at }
    {
        next_from(self.codes, at + 11 + 2 * self.byte_at(at + 1)).unwrap()
    }

    // The verdict, if the record at a position decides it: else the pass goes on behind it.
    pub fn judge_at(&self, at: usize, upper: usize, size: usize) -> Option<Result<(), Refusal>>
        requires { (at ≤ length self.now.codes.now) × (upper ≤ 65535) }
        ensures { MatchOption result (Steps self.now.codes.now at upper size)
            (λ verdict. Stops self.now.codes.now at upper size (number_in verdict)) }
    {
        if at == self.codes.len() {
            return Some(Err(Refusal::BadText));
        }
        if !self.is_good(at) {
            return Some(Err(Refusal::BadRecord));
        }
        if let Kind::End = self.kind_at(at) {
            return if self.next_at(at) == self.codes.len() {
                Some(Ok(()))
            } else {
                Some(Err(Refusal::BadText))
            };
        }
        let end = self.offset_at(at, upper) + self.count_at(at);
        if upper * SPAN + SPAN < end {
            return Some(Err(Refusal::BadAddress));
        }
        if size < end {
            Some(Err(Refusal::BadAddress))
        } else {
            None
        }
    }
}
