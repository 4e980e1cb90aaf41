//! What a caller of `hushlang` states and proves.

ghost use Rattle.std.specs.Prelude.{◌≡◌, Some, true, false};
ghost use Rattle.hushlang.specs.Texts.{HasNoTree};
ghost use Rattle.tests_callers.specs.Tree.{HasTree};

use hushlang::{SyntaxError, parse};
use std::alloc::Global;

/// Whether a text is a script. There is no answer where memory is refused.
pub fn is_script(alloc: Global, text: &[u8]) -> Option<bool>
    ensures script { result ≡ Some true → HasTree text.now }
    ensures none { result ≡ Some false → HasNoTree text.now }
{
    let Err(error) = parse(alloc, text) else {
        return Some(true);
    };
    if error == SyntaxError::Memory {
        return None;
    }
    Some(false)
}
