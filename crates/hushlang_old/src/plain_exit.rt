//! `exit` within a compound command in 2025.01.
ghost use Rattle.std.specs.Prelude.{◌≡◌, map, option_map, IfOk};
ghost use Rattle.hushlang.specs.KnownFields.{known_fields};
ghost use Rattle.hushlang.specs.TreesShown as view;
ghost use Rattle.hushlang_old.specs.OldTrees as says;

use commands::ends_text;
use hushlang::{Call, Piece, Word};
use hushlang_uboot::call_of;
use std::alloc::{AllocError, Global};

/// Whether a call is an `exit` with a number, and no variable is in its words.
fn is_plain_exit(call: &Call) -> bool
    ensures { result ≡ says.is_plain_exit (known_fields (view.call call.now)) }
{
    let Some(fields) = call.fields() else {
        return false;
    };
    match fields.as_slice() {
        [name, number] => name.as_slice() == b"exit".as_slice() && ends_text(number),
        _ => false,
    }
}

/// The words of an `exit` without a number. Errors: memory ran out.
fn exit_alone(alloc: Global) -> Result<Vec<Word>, AllocError>
    ensures { IfOk result (λ words. view.words_in words ≡ says.exit_alone) }
{
    let mut pieces = Vec::new(alloc);
    pieces.push(Piece::Bytes(Vec::from_slice(alloc, b"exit")?))?;
    let mut words = Vec::new(alloc);
    words.push(Word { pieces })?;
    Ok(words)
}

/// A simple command of these words. `within` says whether it is in a compound command and `exit`
/// ends the text there, with status 0. Errors: memory ran out.
pub(crate) fn simple_call(alloc: Global, within: bool, words: Vec<Word>) -> Result<Call, AllocError>
    ensures { IfOk result (λ call. view.call call
        ≡ says.without_number within (view.words_in words)) }
{
    let call = call_of(alloc, words)?;
    if within && is_plain_exit(&call) {
        return call_of(alloc, exit_alone(alloc)?);
    }
    Ok(call)
}
