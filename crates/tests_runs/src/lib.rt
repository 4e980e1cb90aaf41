//! What rows ask of rehearsals, over both stores, and the job that makes calls under refused growths of memory. The program
//! `tests_libraries` reads the rows, and its head says what each asks.
#![tactic(auto)]

mod calls;
mod growths;
mod rehearsal;

pub use growths::run_growths;
pub use rehearsal::rehearsed;
