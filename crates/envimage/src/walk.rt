//! An iterator over the variables of an image.
ghost use Rattle.std.specs.Prelude.{◌≡◌};

use crate::content::cut_at_nul;
use text::find;

/// The variables of an image's data, in order.
#[derive(Clone, Copy, Debug)]
pub struct Entries<'a> {
    rest: &'a [u8],
}

impl<'a> Entries<'a> {
    pub(crate) fn over(data: &'a [u8]) -> Self
        ensures { result.rest.now ≡ «data».now }
    {
        Entries { rest: data }
    }
}

impl<'a> Iterator for Entries<'a> {
    type Item = (&'a [u8], &'a [u8]);

    ghost use Rattle.std.specs.Prelude.{length};
    ghost use Rattle.std.specs.Iterator.{YieldsFirstBy, at_most};
    ghost use Rattle.envimage.specs.Entries.{pairs_left, pair_at};

    ghost next_gives = { YieldsFirstBy pair_at pairs_left };

    ghost remaining = { λ s. at_most (length s.rest.now) };

    fn next(&mut self) -> Option<Self::Item> {
        let (text, after) = cut_at_nul(self.rest)?;
        if text.is_empty() {
            return None;
        }
        let at = find(text, b'=').unwrap_or(text.len());
        self.rest = after;
        Some((&text[..at], text.get(at + 1..).unwrap_or(&[])))
    }
}
