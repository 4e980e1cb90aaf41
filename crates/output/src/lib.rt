//! Outputs: where the programs write, and what contracts see of it.
#![tactic(auto)]

mod byte_array;
mod out;
mod over;
mod page;
mod writing;

pub use byte_array::Bytes;
pub use out::{Out, OutFault};
pub use over::Over;
pub use page::{BytePage, flush, put};
pub use writing::{write_all, write_parts};
