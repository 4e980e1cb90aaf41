//! What the programs do with files: the images, printed and changed; the device list; how a program
//! starts, what it shows, and how it ends.
#![tactic(auto)]

mod build;
mod ending;
mod images;
mod new_image;
mod note;
mod one_copy;
mod origin;
mod print;
mod read;
mod script;
mod set;
mod showing;
mod sources;
mod starting;
mod telling;

pub use build::Build;
pub use ending::{end, finish, refuse, status_of};
pub use images::{Images, read_images};
pub use new_image::make_image;
pub use note::Note;
pub use one_copy::{ImageSource, read_source};
pub use origin::read_origin;
pub use print::{print_files, slices_of};
pub use read::{SoughtCopy, StoredCopy, read_list, read_text};
pub use script::{SizedScript, read_named_script, read_script, read_script_below};
pub use set::set_files;
pub use showing::{show_help, show_version};
pub use sources::{Sources, read_sources};
pub use starting::{Buffered, StartError, buffered, words_of_call};
pub use telling::Telling;
