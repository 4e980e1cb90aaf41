//! What U-Boot's modern shell reads in a text, and the words of its commands.
#![tactic(auto)]

mod building;
mod byte_classes;
mod expanding_words;
mod found_words;
mod modern_text;
mod modern_tokens;
mod modern_trees;
mod stop;
mod word_bytes;

pub use expanding_words::modern_fields;
pub use modern_text::ModernText;
pub use modern_trees::read_modern;
pub use stop::Stop;
