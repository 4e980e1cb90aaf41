//! A caller of the library `ubtool`: what someone who builds on it states and proves. It is shown in the page `CALLING.md` of
//! that library.
#![tactic(auto)]

pub mod changes;
