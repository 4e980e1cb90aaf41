//! What the commands of a script mean: the words after `test`, names of variables, and the computed commands.
#![tactic(auto)]

mod computed;
mod hexadecimal;
mod itest;
mod known_commands;
pub mod laws;
mod number;
mod setexpr;
mod truth;
mod uboot_exit;
mod uboot_number;
mod uboot_test;
mod variable_name;

pub use computed::{Computed, computes};
pub use known_commands::{Known, known_of};
pub use truth::verdict;
pub use uboot_exit::{
    ends_text, follows_exit, leading_number, newer_exit, newer_exit_status, uboot_exit_status,
};
pub use uboot_test::{Question, uboot_question, uboot_truth};
pub use variable_name::is_bad_name;
