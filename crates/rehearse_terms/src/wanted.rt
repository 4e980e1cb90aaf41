//! Which runs of a rehearsal are wanted.
ghost use Rattle.std.specs.Prelude.{◌≡◌};
ghost use Rattle.rehearse_terms.specs.WantedShown.{wanted_bounds, wanted_slices, wanted_strings, wanted_word};

use crate::bounds::Bounds;
use crate::run_bounds::RunBounds;

/// How much of a listing is written at one time.
#[derive(Clone, Copy, Debug)]
pub struct Page {
    /// The most records that are written.
    pub limit: Option<u32>,
}

/// Which runs are wanted. A word is written as a listing prints it: `.` is the empty one.
#[derive(Clone, Copy, Debug, Drop)]
pub enum Wanted<T> {
    /// The runs of a listing.
    Listing {
        /// How far each run may go.
        bounds: Bounds,
        /// The listing starts after the run of this word.
        after: Option<T>,
        /// How much of it is written.
        page: Page,
    },
    /// Only the run of a word.
    Word {
        /// How far it may go.
        bounds: RunBounds,
        /// Its word.
        word: T,
    },
}

impl Wanted<String> {
    /// The same, with slices for its words.
    pub fn as_bytes(&self) -> Wanted<&[u8]>
        ensures bounds { wanted_bounds result ≡ wanted_bounds self.now }
        ensures runs { wanted_slices result ≡ wanted_strings self.now }
    {
        match self {
            Wanted::Listing {
                bounds,
                after,
                page,
            } => Wanted::Listing {
                bounds: *bounds,
                after: match after {
                    Some(word) => Some(word.as_bytes()),
                    None => None,
                },
                page: *page,
            },
            Wanted::Word { bounds, word } => Wanted::Word {
                bounds: *bounds,
                word: word.as_bytes(),
            },
        }
    }

    /// The word that is named, if one is.
    pub fn into_word(self) -> Option<String>
        ensures { result ≡ wanted_word self }
    {
        match self {
            Wanted::Listing { after, .. } => after,
            Wanted::Word { word, .. } => Some(word),
        }
    }
}
