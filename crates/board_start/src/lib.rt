//! How a board starts, as its device list says: the variables that it has before the run, and the
//! texts that run first.
#![tactic(auto)]

mod begin_text;
mod board;
mod board_error;
mod counter;
mod place;
mod said;
mod start;
mod start_error;
pub mod start_laws;
mod values;

pub use board::Board;
pub use board_error::BoardError;
pub use start::{Begun, Start};
pub use start_error::StartError;
