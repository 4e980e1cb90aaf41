//! Boots of a board, one after another: how the runs of each end, and which boot follows, by what was saved.
#![tactic(auto)]

mod answering;
mod ask;
mod boot;
mod boots_error;
mod exploring;
mod found;
mod kept;
mod leading;
mod lines;
mod next;
mod telling;
mod way;
mod way_back;

pub use ask::{Board, BootsAsk, Expected, Started};
pub use boots_error::BootsError;
pub use telling::boots_env;
