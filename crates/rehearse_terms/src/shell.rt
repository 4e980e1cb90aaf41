//! The shells by whose rules a script can run.

/// A shell: ubtool's own reading of the language, or one of U-Boot's.
#[derive(Clone, Copy, Debug)]
pub enum Shell {
    /// ubtool's own reading of the language.
    Profile,
    /// The old shell of U-Boot 2023.01.
    Old2023,
    /// The old shell of U-Boot 2025.01.
    Old2025,
    /// The modern shell of U-Boot 2025.01, on a board whose addresses have 64 bits.
    Modern2025,
}
