// Why a listing is refused.
use flash::refusal::Refusal;

// Sizes and a list are refused before a line is read. A faulty line is told with its place, counted from 1.
#[derive(Clone, Copy)]
pub enum Fault {
    Lent(Refusal),
    Line { refusal: Refusal, line: usize },
}
