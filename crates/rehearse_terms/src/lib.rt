//! The terms of a rehearsal: how far a run may go, and which runs are wanted. Its definitions say what an outcome word
//! and the state of a run are.
#![tactic(auto)]

mod bounds;
mod run_bounds;
mod shell;
mod wanted;
mod written;

pub use bounds::{Bounds, DEVICES_MAX, STEPS_MAX};
pub use run_bounds::{RUN_DEVICES_MAX, RunBounds};
pub use shell::Shell;
pub use wanted::{Page, Wanted};
pub use written::Written;
