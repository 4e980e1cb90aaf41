//! A hash whose key is the input that the names are from.
ghost use Rattle.std.specs.Prelude.{◌≡◌};
ghost use Rattle.keyed_hash.specs.Keyed.{with_text, without_key};

use std::hash::{BuildHasher, DefaultHasher, Hasher};

/// SipHash-1-3 after a key. A map has the same entries with any key. Names that have one hash are
/// easily found for a key that is known, but each of their bytes changes the key of their text.
#[derive(Clone, Copy)]
pub struct KeyedHash {
    /// The state after the key.
    begun: DefaultHasher,
}

impl KeyedHash {
    /// The hash without a key, for a map that stays empty, or for names that come from no input.
    pub fn new() -> Self
        ensures { result ≡ without_key }
    {
        KeyedHash {
            begun: DefaultHasher::new(),
        }
    }

    /// The hash whose key is a text: all that the names are from.
    pub fn of(text: &[u8]) -> Self
        ensures { result ≡ with_text without_key text.now }
    {
        KeyedHash::new().with(text)
    }

    /// This hash with one more text after its key, for names that are from both.
    pub fn with(self, text: &[u8]) -> Self
        ensures { result ≡ with_text self text.now }
    {
        let mut begun = self.begun;
        begun.write(text);
        KeyedHash { begun }
    }
}

impl BuildHasher for KeyedHash {
    type Hasher = DefaultHasher;

    ghost build_hasher = { λ hash. hash.begun };

    fn build_hasher(&self) -> DefaultHasher {
        self.begun
    }
}
