//! Rehearsals: the runs of a boot script, each once and in order, and their listing. What callers need is found under this
//! name.
#![tactic(auto)]

pub mod laws;

pub use bootstore_trail::Trail;
pub use commands::verdict;
pub use device_list::{BoardEnd, Devices, DevicesError, Effect, LeftSide, RightSide, Setting};
pub use envtools::Env;
pub use output::{Out, OutFault, Over};
pub use rehearse_records::RunView;
pub use rehearse_rules::{Ending, RehearseError, read_devices};
pub use rehearse_runs::{
    Ask, Finish, Point, Runs, Source, WordKind, rehearse_env, resume_point, try_word, write_listing,
};
pub use rehearse_terms::{
    Bounds, DEVICES_MAX, Page, RUN_DEVICES_MAX, RunBounds, STEPS_MAX, Wanted,
};
