//! What the program does with images, from bytes to bytes, and the line of a fault.
#![tactic(auto)]

mod change;
mod dump;
mod error;
mod fault;
mod fault_line;
mod image_env;
mod new_image;
mod print;
mod standard_input;
mod text_image;
mod word_form;

pub use change::{Edit, set_bytes};
pub use error::ToolError;
pub use fault::Fault;
pub use fault_line::write_fault_of;
pub use image_env::env_of_image;
pub use new_image::{Layout, new_image_of_text};
pub use print::{PrintAsk, print_bytes};
pub use standard_input::run_input;
pub use text_image::{empty_image, env_of_text, image_of_text};
pub use word_form::WordForm;
