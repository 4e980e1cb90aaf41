//! The words of a command, and those of a `for`.
ghost use Rattle.std.specs.Prelude.{◌≡◌, ◌++◌, map, IfOk, OnOk};
ghost use Rattle.hushlang.specs.TreesShown as view;
ghost use Rattle.hushlang_old.specs.OldFields as says;

use crate::constant::{are_constant, constant_fields};
use crate::rereading::reread;
use crate::word_bytes::{command_text, inserted};
use hushlang::{Vars, Word};
use std::alloc::{AllocError, Global};

/// The words of a command as U-Boot's old shell finds them. A command that cannot be read with its
/// values has none.
pub fn old_fields<V: Vars>(
    alloc: Global,
    words: &[Word],
    vars: &V,
) -> Result<Vec<Vec<u8>>, AllocError>
    ensures { IfOk result (λ found. map (λ field. field.items) found.items
        ≡ says.old_fields (V.parameters vars.now) (map view.word words.now)) }
{
    if are_constant(words) {
        return constant_fields(alloc, words, vars);
    }
    let text = command_text(alloc, words, vars)?;
    reread(alloc, &text)
}

/// What is between the spaces of some bytes, where that is not empty.
fn turns_in(alloc: Global, bytes: &[u8]) -> Result<Vec<&[u8]>, AllocError>
    ensures { IfOk result (λ turns. map (λ turn. turn.now) turns.items ≡ says.turns_in bytes.now) }
{
    bytes
        .split(|byte| *byte == b' ')
        .filter(|part| !part.is_empty())
        .collect(alloc)
}

/// Adds copies of some bytes each.
fn append_copies(alloc: Global, turns: &mut Vec<Vec<u8>>, more: &[&[u8]]) -> Result<(), AllocError>
    ensures { OnOk result (map (λ turn. turn.items) turns.new.items
        ≡ map (λ turn. turn.items) turns.old.items ++ map (λ turn. turn.now) more.now) }
{
    for turn in more {
        turns.push(Vec::from_slice(alloc, turn)?)?;
    }
    Ok(())
}

/// The words of a `for` as U-Boot's old shell finds them: what its variable is set to, in order.
pub fn old_turns<V: Vars>(
    alloc: Global,
    words: &[Word],
    vars: &V,
) -> Result<Vec<Vec<u8>>, AllocError>
    ensures { IfOk result (λ found. map (λ turn. turn.items) found.items
        ≡ says.old_turns (V.parameters vars.now) (map view.word words.now)) }
{
    let mut turns = Vec::new(alloc);
    for word in words {
        let bytes = inserted(alloc, word, vars)?;
        append_copies(alloc, &mut turns, &turns_in(alloc, &bytes)?)?;
    }
    Ok(turns)
}
