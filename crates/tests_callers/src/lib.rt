//! Callers of the libraries: what someone who builds on one of them states and proves. Each is shown in the page
//! `CALLING.md` of its library.
#![tactic(auto)]

pub mod environments;
pub mod images;
pub mod runs;
pub mod scripts;
pub mod stores;
