// The mover: run, read and rebuild, each proved equal to its definition in crate `method`.

#![tactic(auto)]

mod prepared;
pub mod read;
pub mod rebuild;
mod rebuild_refusals;
mod refusals;
pub mod run;
mod step;
mod wear;
