//! What rows ask of images, environments, files, outputs and command lines, and two jobs on images. The program
//! `tests_libraries` reads the rows, and its head says what each asks.
#![tactic(auto)]

mod calls;
mod case;
mod checksum;
mod environments;
mod faults;
mod files;
mod images;
mod outputs;
mod performing;
mod readers;
mod set_image;
mod subcommands;
mod writers;

pub use case::Case;
pub use checksum::time_checksum;
pub use faults::{line_of, lines_of_faults};
pub use performing::{Calls, Performed, answer_call, answer_sweep};
pub use readers::Source;
pub use set_image::change_image;
pub use writers::{Mode, Tested};
