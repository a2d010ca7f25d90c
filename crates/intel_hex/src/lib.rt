// Intel HEX: a store at rest as text, and back. The definitions are in specs/.

#![tactic(auto)]

mod bits;
pub mod call;
mod codes;
mod kind;
mod line;
mod print;
mod put;
mod read;
mod survey;
mod text;
mod turn;
mod weights;
mod write;

// The code behind each record.
const LINE_FEED: u8 = 10;

// The bytes of a record that the writer writes, but for the last; the reader takes as many at once.
const CHUNK: usize = 16;

// The codes of a record without bytes, with its line feed.
const SHORTEST: usize = 12;

// The bytes that the 16 bits of a record's address reach.
const SPAN: usize = 65536;

ghost use Rattle.intel_hex.specs.Claims.{TextLength, RecordsTaken, UpperHalves, RoundTrip, TextsDiffer};
ghost use Rattle.intel_hex.specs.Examples.{Examples};

// The theorems about the definitions, as the contract of a function that does nothing: the check demands their proofs.
pub fn claims()
    ensures text_length { TextLength }
    ensures records_taken { RecordsTaken }
    ensures upper_halves { UpperHalves }
    ensures round_trip { RoundTrip }
    ensures texts_differ { TextsDiffer }
    ensures examples { Examples }
{}
