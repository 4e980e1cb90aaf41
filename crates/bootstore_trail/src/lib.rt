//! A store that goes back to a marked state by the inverses of the changes since.
#![tactic(auto)]

mod inverse;
mod trail;

pub use trail::Trail;
