//! States that runs can meet: what the runs still to come of one depend on, and the rows and the flow that say how they end.
#![tactic(auto)]

mod ending_lines;
mod fail_lines;
mod flow;
mod flow_lines;
mod hashing;
mod places;
mod rows;
mod run_end;
mod run_word;
mod sum_nodes;
mod sum_rows;
mod summary;
mod value_lines;
mod words;

pub use ending_lines::{put_below, put_ending, put_number, put_row, text_of};
pub use fail_lines::put_fail;
pub use flow::{Flow, Node};
pub use flow_lines::flow_text_of;
pub use hashing::{hash_of, mix, mix_text, mix_words, number_of};
pub use places::{copy_frames, same_frames};
pub use rows::Row;
pub use run_end::{RunEnd, run_end_of, same_halt};
pub use run_word::RunWord;
pub use sum_nodes::SumNode;
pub use sum_rows::rows_of;
pub use summary::{Summary, of_end, of_sides};
pub use value_lines::put_variable;
pub use words::words_at;
