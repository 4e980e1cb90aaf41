//! Rows of tests: lines of a text, each a word and what it says, and the transcript of a program that answers them. The
//! program `tests_libraries` reads them.
#![tactic(auto)]

mod answers;
mod escapes;
mod words;

pub use answers::{Rows, answer_input, said};
pub use escapes::{shown, unescaped};
pub use words::{first_word, number, slices, subject_of, text_of, unescaped_text, words_of};
