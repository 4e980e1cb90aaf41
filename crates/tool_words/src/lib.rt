//! The words of a call: the command line that `clap` is given (of `ubtool`, and what `hushcheck` has in common with it), and
//! what a call asks for.
#![tactic(auto)]

mod answer;
mod argument;
mod ask;
mod called;
mod command;
mod expected;
mod kinds;
mod notes;
mod number;
mod origin;
mod read;
mod shared;
mod shell;
mod subcommand;
mod tables;
mod version;

pub use answer::{Answer, parse};
pub use argument::{Argument, Form, with_arguments};
pub use ask::{
    Ask, BootsAsk, CausesAsk, Change, DEFAULT_BOOTS, DEFAULT_CAUSE_FAILURES, DEFAULT_CONFIG,
    DEFAULT_DEVICES, DEFAULT_MEMORY, DEFAULT_RUN_DEVICES, DEFAULT_RUN_STEPS, DEFAULT_STATES,
    DEFAULT_STEPS, DEFAULT_VARIABLE, DEFAULT_WORK, EndingsAsk, ExpectedAsk, ImageAsk, Inputs,
    Origin, OriginError, PrintAsk, RehearseAsk, Taking, UseError, ValueAsk,
};
pub use called::{CalledAs, called_as, words_called};
pub use origin::{images_of, origin_beside, origin_of};
pub use read::{config_of, is_set, order_of, read_command, read_lock, text_of, texts_of};
pub use shared::{BIG_ENDIAN, CONFIG, DEVICE_LIST, IMAGE, NAMES, SCRIPT_FILE, SECOND, TEXT};
pub use tables::{ALTERNATIVES_MAX, CAUSE_FAILURES_MAX, FAILURES_MAX};
pub use version::VERSION;
