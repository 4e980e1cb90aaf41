//! A second caller of `envtools`: the text that is printed of an environment, and read again.
#![tactic(auto)]

pub mod printing;
