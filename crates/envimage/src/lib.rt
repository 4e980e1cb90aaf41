//! U-Boot environment images: their checksum, their data, and the configurations that say where they are.
#![tactic(auto)]

mod config;
mod content;
mod crc;
mod crc_tables;
mod encoding;
mod image;
pub mod laws;
mod number;
mod walk;

pub use config::{ConfigError, Place, parse_config};
pub use content::{DataError, check_data, entries};
pub use crc::crc32;
pub use encoding::encode;
pub use image::{ByteOrder, COPY_MIN, ImageError, Loaded, SINGLE_MIN, SIZE_MAX, Which, load};
pub use output::{Out, OutFault, Over};
pub use walk::Entries;
