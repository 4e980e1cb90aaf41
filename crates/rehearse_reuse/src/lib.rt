//! Where a summary of what is to come may be used again: at one place, with the same values of keys.
#![tactic(auto)]

pub mod laws;
