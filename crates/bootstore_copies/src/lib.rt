//! A store that keeps a copy of each marked state. Tests compare it with the one that the programs use.
#![tactic(auto)]

mod plain;

pub use plain::Plain;
