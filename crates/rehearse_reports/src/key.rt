//! A thing that a run can read.
ghost use Rattle.rehearse_reports.specs.KeyHash.{key_input, same_input};

use std::hash::{Hash, Hasher};

/// A thing that a run can read.
#[derive(PartialEq, Eq, Drop)]
pub enum Key {
    /// A variable of the environment: its value, or that it is not set.
    Environment(Vec<u8>),
    /// A shell variable, in the same way.
    Local(Vec<u8>),
    /// The answer that stays for a device command with these words, its name first: the answer, or
    /// that there is none.
    AnswerTo(Vec<Vec<u8>>),
    /// Whether a device command has succeeded whose words, its name first, begin so.
    Succeeded(Vec<Vec<u8>>),
    /// `$?`
    Status,
}

// A derived hash takes a name byte by byte, which takes longer.
impl Hash for Key {
    ghost hash_input = { key_input };

    ghost respects_eq = { same_input };

    fn hash<H: Hasher>(&self, state: &mut H) {
        match self {
            Key::Environment(name) => {
                state.write(name);
                state.write_u8(0);
            }
            Key::Local(name) => {
                state.write(name);
                state.write_u8(1);
            }
            Key::AnswerTo(call) => {
                call.hash(state);
                state.write_u8(2);
            }
            Key::Succeeded(start) => {
                start.hash(state);
                state.write_u8(3);
            }
            Key::Status => state.write_u8(4),
        }
    }
}
