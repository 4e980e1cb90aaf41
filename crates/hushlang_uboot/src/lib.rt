//! What the readers of U-Boot's two shells share: the words that are gathered, the reserved words, and the compound commands that
//! are open.
#![tactic(auto)]

mod calls;
mod gathered;
mod nest;
mod next_part;
mod open_commands;
mod part;
mod pieces;
mod read_bytes;
mod reserved;

pub use calls::call_of;
pub use gathered::Gathered;
pub use nest::{Gone, Nest};
pub use part::{Part, is_header};
pub use pieces::{are_constant_pieces, have_quotes, only_bytes, without_first};
pub use read_bytes::{is_between, sign_of, unescaped};
pub use reserved::{Reserved, begins, is_do, is_in, reserved_bytes};
