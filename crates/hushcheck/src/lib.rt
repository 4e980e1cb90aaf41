//! Where boot scripts break: the texts that are reached from a variable, and what is wrong in each.
#![tactic(auto)]

mod asked;
mod by_shell;
mod call_sets;
mod calls;
mod changed;
mod check_error;
mod checking;
mod fault;
mod lines;
mod names;
mod place;
mod queue;
mod reading;
mod remark;
mod rules;
mod seat;
mod shown;
mod sights;
mod telling;
mod unset;
mod walk;
mod warning;
mod watch;

pub use asked::asked_names;
pub use changed::{Changed, changed_names};
pub use check_error::CheckError;
pub use checking::{check, check_script};
pub use names::names_once;
pub use place::{Place, place_of};
pub use rules::Rules;
