//! The copies of an image, and the places where they lie.

/// A copy of an image, or a single image, and the place where it lies.
#[derive(Clone, Copy, Debug)]
pub struct Held<'a> {
    /// The path of its file.
    pub path: &'a str,
    /// Where it begins in the file, in bytes.
    pub offset: u64,
    /// Its bytes.
    pub bytes: &'a [u8],
}

/// A single image, or the two copies of a pair.
#[derive(Clone, Copy, Debug)]
pub enum Copies<'a> {
    /// A single image.
    Single(Held<'a>),
    /// The first copy of a pair, and the second.
    Pair(Held<'a>, Held<'a>),
}
