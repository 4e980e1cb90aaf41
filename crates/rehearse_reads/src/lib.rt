//! What a stretch of a run reads and writes, and that runs from states that agree on it go alike.
#![tactic(auto)]

pub mod laws;
