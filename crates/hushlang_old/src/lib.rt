//! The words of a command, and those of a `for`, as U-Boot's old shell finds them, and the trees of texts.
#![tactic(auto)]

mod building;
mod constant;
mod defaults;
mod found_words;
mod old_tokens;
mod old_trees;
mod old_words;
mod plain_exit;
mod rereading;
mod word_bytes;

pub use defaults::{behind_variable, variable_of};
pub use old_trees::{has_fault, lacks_end, read_old};
pub use old_words::{old_fields, old_turns};
pub use word_bytes::inserted;
