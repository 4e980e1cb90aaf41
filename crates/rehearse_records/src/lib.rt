//! Records of runs: a run that is borrowed from a store, and the lines that are written of it.
#![tactic(auto)]

mod line_pieces;
mod record;
mod run_view;

pub use record::write_record;
pub use run_view::RunView;
