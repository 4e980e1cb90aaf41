//! How the runs of a boot script end: for each ending how many runs end like this, and the first of
//! them.
#![tactic(auto)]

mod entry;
mod held;
mod keys;
pub mod laws;
mod numbers;
mod searching;
mod sum_error;
mod table;
mod telling;

pub use searching::{Endings, sum_endings};
pub use sum_error::SumError;
pub use telling::{EndingsAsk, endings_env, endings_of};
