//! What an image is: its places, its checksums, which copy counts and why, and what it holds.
#![tactic(auto)]

mod copies;
mod guess_lines;
mod guessing;
mod judging;
mod lines;
mod report;
mod telling;

pub use copies::{Copies, Held};
pub use telling::inspect;
