//! What rows ask of the whole program and of what it depends on. The program `tests_libraries` reads the rows, and its head says
//! what each asks.
#![tactic(auto)]

mod calls;
mod case;
mod faults;
mod performing;

pub use case::Whole;
