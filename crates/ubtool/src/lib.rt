//! The program from its words to its status, over any files and outputs, and what it does with the bytes of images.
#![tactic(auto)]

mod beginning;
mod board_environment;
mod boot_board;
mod boots;
mod causes;
mod endings;
mod fault;
mod image_boots;
mod image_causes;
mod image_endings;
mod image_rehearsal;
mod in_turn;
mod inspection;
mod kept_names;
mod perform;
mod rehearsal_error;
mod rehearsing;
mod room;
mod source_bytes;
mod tool;

pub use beginning::DeviceText;
pub use board_start::StartError;
pub use envimage::{ByteOrder, Which};
pub use envtools::PrintForm;
pub use fault::ProgramFault;
pub use image_boots::boots_bytes;
pub use image_causes::causes_bytes;
pub use image_endings::endings_bytes;
pub use image_rehearsal::rehearse_bytes;
pub use output::{Out, OutFault, Over};
pub use rehearsal_error::RehearsalError;
pub use rehearse as runs;
pub use tool::{REFUSED, run_tool};
pub use tool_files::{FileFault, Files};
pub use tool_images as images;
pub use tool_images::{Edit, ToolError, print_bytes, set_bytes};
pub use tool_words::{
    Ask, BootsAsk, CausesAsk, Change, EndingsAsk, ExpectedAsk, ImageAsk, Inputs, Origin,
    OriginError, PrintAsk, RehearseAsk, Taking, UseError, ValueAsk, read_command,
};
