//! What rows ask of texts, of device lists and of both stores. The program `tests_libraries` reads the rows, and its head says
//! what each asks.
#![tactic(auto)]

mod both;
mod calls;
mod case;
mod language;
mod lists;
mod store;
mod variables;
mod verdicts;

pub use both::agreed;
pub use calls::{devices_of, env_of};
pub use case::Case;
