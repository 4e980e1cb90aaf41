//! The hash by which names of an input are found in a map, so that no names can be chosen that make it slow.
#![tactic(auto)]

mod keyed;

pub use keyed::KeyedHash;
