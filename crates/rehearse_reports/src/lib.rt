//! Runs a rehearsal and reports the keys that its steps read and write.
#![tactic(auto)]

mod asked;
mod beginnings;
mod begins;
mod calls;
mod driving;
mod key;
mod known;
pub mod laws;
mod looping;
mod moves;
mod outcomes;
mod reported;
mod resuming;
mod words;

pub use asked::report_asked;
pub use key::Key;
pub use known::{Known, all_hold, answer_to, keys_of, known_at};
pub use reported::{Needed, Reported};
pub use resuming::{begin_watched, resume_reported};
