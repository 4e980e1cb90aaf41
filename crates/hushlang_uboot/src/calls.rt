//! Simple commands.
ghost use Rattle.std.specs.Prelude.{◌≡◌, IfOk};
ghost use Rattle.hushlang.specs.TreesShown as view;

use hushlang::{Call, Word};
use std::alloc::{AllocError, Global};

/// A simple command of these words. Errors: memory ran out.
pub fn call_of(alloc: Global, words: Vec<Word>) -> Result<Call, AllocError>
    ensures { IfOk result (λ call. view.call call ≡ view.words_in words) }
{
    match Call::new(alloc, words) {
        Ok(call) => Ok(call),
        Err(_) => Err(AllocError),
    }
}
