//! What the frames of the machine still read and write, and what one move reads and writes.
#![tactic(auto)]

pub mod laws;
