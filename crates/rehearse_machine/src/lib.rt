//! One run of a boot script: a machine over a store of states. It stops where a device command
//! asks.
#![tactic(auto)]

mod ask;
mod asking;
mod assigns;
mod blocks;
mod built_in;
mod by_shell;
mod computed;
mod ended_texts;
mod expecting;
mod file_moves;
mod for_turn;
mod frame_moves;
mod frames;
mod list_commands;
mod lists;
mod machine;
mod memory;
mod named;
mod new_value;
mod next_move;
mod outcomes;
mod plain_call;
mod rehearsal;
mod room;
mod run_and_exit;
mod scripts;
mod simple;
mod source;
mod steps;
mod told;

pub use ask::{Ask, Statuses, Step};
pub use asking::{call_in_front, find_again};
pub use by_shell::{asks_in, follows, is_refused, question_in};
pub use ended_texts::drop_ended;
pub use expecting::{expected_answer, is_unexpected};
pub use list_commands::command_of;
pub use machine::step;
pub use new_value::NewValue;
pub use outcomes::{answer, value_of, variable_of};
pub use plain_call::{ShellCall, call_in};
pub use rehearsal::{Rehearsal, Stop, Stopped, begin, resume, start};
pub use source::Source;
pub use steps::{assigned_value, expanded};
