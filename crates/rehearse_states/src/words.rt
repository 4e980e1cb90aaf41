//! The words of a device command of the log.
ghost use Rattle.std.specs.Prelude.{◌≡◌, Some, IfOk};
ghost use Rattle.std.specs.List.{slice_get};
ghost use Rattle.text.specs.TextsShown.{bytes_of_words};
ghost use Rattle.rehearse_states.specs.Words.{words_in};

use bootstore_state::{Store, StoreError};
use std::alloc::Global;
use text::copied_words;

/// The words of the device command at a place of the log.
pub fn words_at<S: Store>(alloc: Global, store: &S, place: u32) -> Result<Vec<Vec<u8>>, StoreError>
    ensures { IfOk result (λ words. bytes_of_words words.items
        ≡ words_in (slice_get (S.record_of store.now).present.log place)) }
{
    match store.log().get(place as usize) {
        Some(command) => Ok(copied_words(alloc, &command.words)?),
        None => Ok(Vec::new(alloc)),
    }
}
