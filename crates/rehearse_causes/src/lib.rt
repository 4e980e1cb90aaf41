//! What has to fail in a boot script for each way to end.
#![tactic(auto)]

mod cause;
mod kept;
pub mod laws;
mod least;
mod number;
mod telling;

pub use cause::Cause;
pub use telling::{CausesAsk, causes_env};
