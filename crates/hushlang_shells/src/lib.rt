//! What becomes of texts, by the shell that reads them.
#![tactic(auto)]

mod text_read;
mod trees_by_shell;

pub use text_read::TextRead;
pub use trees_by_shell::{read_first, read_sourced, read_started};
