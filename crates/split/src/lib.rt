// A list of destinations and its split into sets. The definitions are in specs/.

#![tactic(auto)]

pub mod call;
pub mod drops;
mod inverse;
pub mod list;
mod mask;
mod path;
pub mod pins;
pub mod rows;
mod rule;
mod tables;

ghost use Rattle.split.specs.Claims.{SplitEnds, WalkEnds, WalkIsShort, WalkBoundMet, Completes, NoDrops, DropCases, FilledFits};
ghost use Rattle.split.specs.PinFirst.{SplitPinFirst};

// The theorems about the definitions, as the contract of a function that does nothing: the check demands their proofs.
pub fn claims()
    ensures split_ends { SplitEnds }
    ensures walk_ends { WalkEnds }
    ensures walk_is_short { WalkIsShort }
    ensures walk_bound_met { WalkBoundMet }
    ensures completes { Completes }
    ensures no_drops { NoDrops }
    ensures drop_cases { DropCases }
    ensures filled_fits { FilledFits }
    ensures pin_first { SplitPinFirst }
{}
