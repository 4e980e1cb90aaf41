//! The runs of a boot script in their order, and their listing.
#![tactic(auto)]

mod ask;
mod failing;
mod listing;
mod one_run;
mod rehearsing;
mod resuming;
mod runs;
mod searching;
mod trying;
mod walking;

pub use ask::Ask;
pub use listing::{Finish, write_listing};
pub use rehearse_machine::Source;
pub use rehearse_records::RunView;
pub use rehearse_rules::{Ending, RehearseError};
pub use rehearsing::rehearse_env;
pub use resuming::{Point, resume_point};
pub use runs::Runs;
pub use trying::{WordKind, try_word};
