// The calls as C sees them: numbers of 32 bits, lent parts as pointer and length, the list as two bytes an entry.

#![tactic(auto)]

pub mod check_call;
pub mod hex_call;
mod list;
pub mod mend;
pub mod operation;
pub mod order_call;
pub mod read;
pub mod rebuild;
pub mod refresh;
pub mod run;
mod sizes;
pub mod split_call;
mod wear;
