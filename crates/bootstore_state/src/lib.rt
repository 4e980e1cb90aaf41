//! The state of a run of a boot script. It can be marked, and a run can go back to it.
#![tactic(auto)]

mod copies;
mod device_line;
mod device_log;
mod frame;
mod kept_text;
pub mod laws;
mod log;
mod present;
mod scripts;
mod store;
mod table;

pub use copies::copy_of;
pub use device_log::DeviceLog;
pub use frame::{At, Frame, FrameKind};
pub use kept_text::{add_text, cut_text, text_length};
pub use log::{LogEntry, has_succeeded};
pub use present::{Present, Scope};
pub use scripts::{Scripts, TextFound};
pub use store::{Store, StoreError};
pub use table::{Place, Table, Variables};
