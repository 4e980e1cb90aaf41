//! What a device list says of commands.
#![tactic(auto)]

mod call_line;
mod clauses;
pub mod device_laws;
mod device_line;
mod device_tables;
mod devices;
mod devices_error;
mod file_names;
mod file_text;
mod filled;
mod finish;
mod further;
mod import_call;
mod imports;
mod listed;
mod pattern;
mod quotes;
mod saving;
mod setting;

pub use device_tables::FileTexts;
pub use devices::Devices;
pub use devices_error::DevicesError;
pub use file_names::named_files;
pub use file_text::FileText;
pub use finish::BoardEnd;
pub use import_call::takes;
pub use listed::Effect;
pub use saving::{saved_name, saved_of};
pub use setting::{LeftSide, Reading, RightSide, Setting};
