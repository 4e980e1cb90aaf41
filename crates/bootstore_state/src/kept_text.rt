//! The text that a run has written, if it is kept.
ghost use Rattle.std.specs.Prelude.{◌≡◌, OnOk, OnErr};
ghost use Rattle.rehearse_terms.specs.State.{text_with, unwritten};
ghost use Rattle.text.specs.TextsShown.{option_items};
ghost use Rattle.bootstore_state.specs.Moment.{text_front, text_length};

use rehearse_terms::Written;
use std::alloc::{AllocError, Global};

/// Nothing is written yet. Takes no memory.
pub(crate) fn no_text(alloc: Global, written: Written) -> Option<Vec<u8>>
    ensures { option_items result ≡ unwritten written }
{
    match written {
        Written::Kept => Some(Vec::new(alloc)),
        Written::Dropped => None,
    }
}

/// Adds bytes at the end of a text, if it is kept. Errors: memory ran out, and nothing has changed.
pub fn add_text(text: &mut Option<Vec<u8>>, written: &[u8]) -> Result<(), AllocError>
    ensures ok { OnOk result (option_items text.new
        ≡ text_with written.now (option_items text.old)) }
    ensures err { OnErr result (option_items text.new ≡ option_items text.old) }
{
    if let Some(kept) = text {
        kept.extend_from_slice(written)?;
    }
    Ok(())
}

/// Leaves so many bytes of a text, if it is kept and has more. Takes no memory.
pub fn cut_text(text: &mut Option<Vec<u8>>, length: usize)
    ensures { option_items text.new ≡ text_front length (option_items text.old) }
{
    if let Some(kept) = text {
        kept.truncate(length);
    }
}

/// How many bytes of a text are kept.
pub fn text_length(text: &Option<Vec<u8>>) -> usize
    ensures { result ≡ text_length (option_items text.now) }
{
    match text {
        Some(kept) => kept.len(),
        None => 0,
    }
}
