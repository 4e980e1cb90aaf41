//! The language of boot scripts: tokens, the grammar, the tree of a script, and expansion.
#![tactic(auto)]

mod after_compound;
mod byte_classes;
mod call;
mod cursor;
mod expanding;
mod known_fields;
pub mod laws;
mod lexer;
mod parsing;
mod token;
mod tree;
mod word_parts;
mod word_pieces;
mod words;

pub use after_compound::word_straight_behind;
pub use call::Call;
pub use expanding::{ExpandError, Fields, OneVariable, Vars, expand, expand_one};
pub use lexer::Lexer;
pub use parsing::parse;
pub use token::{Kind, SyntaxError, Token};
pub use tree::{AndOr, Command, Op, Piece, Script, Word};
