//! Stores: the state of a script that runs, and how to go back to a marked state. What callers need is found under this name.
#![tactic(auto)]

pub use bootstore_copies::Plain;
pub use bootstore_state::{At, Frame, FrameKind, LogEntry, Scope, Store, StoreError, Variables};
pub use bootstore_trail::Trail;
pub use envtools::Env;
pub use rehearse_terms::Written;
