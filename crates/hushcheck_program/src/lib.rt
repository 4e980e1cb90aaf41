//! The program `hushcheck` from its words to its status, over any files and outputs.
#![tactic(auto)]

mod ask;
mod command;
mod fault;
mod program;
mod texts;
mod words;

pub use program::{PROGRAM, REFUSED, run_check};
