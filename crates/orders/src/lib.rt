// Which order of the blocks another coding would need fewest erases for. The definitions are in specs/.

#![tactic(auto)]

pub mod calls;
mod places;
mod search;
mod survey;
mod table;

ghost use Rattle.orders.specs.Claims.{LeastGiven, OrdersNumbered, BestGiven, NumbersInOrder};
ghost use Rattle.orders.specs.Examples.{Examples};

// The theorems about the definitions, as the contract of a function that does nothing: the check demands their proofs.
pub fn claims()
    ensures least_given { LeastGiven }
    ensures orders_numbered { OrdersNumbered }
    ensures best_given { BestGiven }
    ensures numbers_in_order { NumbersInOrder }
    ensures examples { Examples }
{}
