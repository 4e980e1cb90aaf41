//! Text, as bytes: the bytes of ASCII by their names, lines and words, numbers, and what a byte is
//! printed as.
#![tactic(auto)]

mod escapes;
mod lines;
mod numbers;
mod search;
mod word_lists;
mod words;

pub use escapes::Escaped;
pub use lines::Lines;
pub use numbers::{are_digits, digit_of, value_in};
pub use search::{find, has_nul};
pub use word_lists::{copied_words, joined_words};
pub use words::{cut_behind, cut_front, is_blank, is_space, next_word, trimmed};
