//! The rehearsal of boot scripts: its runs and its listing.
#![tactic(auto)]

pub mod device_laws;
mod halt;
pub mod laws;
mod reading;
mod rehearse_error;

pub use halt::{Ending, Halt, finish_word};
pub use reading::read_devices;
pub use rehearse_error::RehearseError;
