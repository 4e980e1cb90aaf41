//! All that a rehearsal of a board reads, the files that its device list names among it.
#![tactic(auto)]

mod board_files;
mod named_files;

pub use board_files::{BoardFiles, copied_path, read_board};
pub use named_files::copied_texts;
