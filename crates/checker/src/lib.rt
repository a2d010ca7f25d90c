// Another mover's steps: whether a listing of them would survive a power cut at any line. The definitions are in specs/.

#![tactic(auto)]

mod basis;
pub mod check;
pub mod fault;
mod line;
mod number;
mod pages;
mod turn;

ghost use Rattle.checker.specs.Claims.{LinesAsPrinted, NeverBlank, SumsAreChoices, AcceptsExactly, FirstDecides, MethodPasses};
ghost use Rattle.checker.specs.Examples.{Examples};

// The theorems about the definitions, as the contract of a function that does nothing: the check demands their proofs.
pub fn claims()
    ensures lines_as_printed { LinesAsPrinted }
    ensures never_blank { NeverBlank }
    ensures sums_are_choices { SumsAreChoices }
    ensures accepts_exactly { AcceptsExactly }
    ensures first_decides { FirstDecides }
    ensures method_passes { MethodPasses }
    ensures examples { Examples }
{}
