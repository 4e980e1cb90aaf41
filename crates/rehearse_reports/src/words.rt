//! What words read.
ghost use Rattle.std.specs.Prelude.{OnOk, List, map};
ghost use Rattle.std.specs.List.{flat_map};
ghost use Rattle.hushlang.specs.TreesShown as view;
ghost use Rattle.rehearse_reads.specs.Keys.{all_read};
ghost use Rattle.rehearse_reads.specs.Accesses.{
  inside_reads,
  piece_reads,
  variable_reads,
  word_reads,
  words_reads,
};
ghost use Rattle.rehearse_reports.specs.Reports.{Reports, memory_at};
ghost use Rattle.rehearse_reports.specs.ReportsShown.{accesses_shown};

use crate::key::Key;
use crate::reported::Reported;
use bootstore_state::{Store, StoreError};
use hushlang::{Piece, Word};
use hushlang_old::{behind_variable, variable_of};
use std::alloc::Global;

/// Reports that a variable is read: in the environment, and if it is not set there, among the shell
/// variables. Errors: `Memory`.
fn report_variable<S: Store>(
    alloc: Global,
    reported: &mut Reported,
    store: &S,
    name: &[u8],
) -> Result<(), StoreError>
    ensures { OnOk result (Reports (accesses_shown reported.old) (accesses_shown reported.new)
        (all_read (variable_reads (memory_at (S.record_of store.now).present) name.now))) }
{
    reported.reads(Key::Environment(Vec::from_slice(alloc, name)?))?;
    match store.get_env(name) {
        Some(_) => Ok(()),
        None => {
            reported.reads(Key::Local(Vec::from_slice(alloc, name)?))?;
            Ok(())
        }
    }
}

/// Reports what is read by what is in the braces of a variable. Errors: `Memory`.
fn report_inside<S: Store>(
    alloc: Global,
    reported: &mut Reported,
    store: &S,
    inside: &[u8],
) -> Result<(), StoreError>
    ensures { OnOk result (Reports (accesses_shown reported.old) (accesses_shown reported.new)
        (all_read (inside_reads (memory_at (S.record_of store.now).present) inside.now))) }
{
    report_variable(alloc, reported, store, inside)?;
    if behind_variable(inside).is_empty() {
        return Ok(());
    }
    report_variable(alloc, reported, store, variable_of(inside))
}

/// Reports what a piece of a word reads. Errors: `Memory`.
fn report_piece<S: Store>(
    alloc: Global,
    reported: &mut Reported,
    store: &S,
    piece: &Piece,
) -> Result<(), StoreError>
    ensures { OnOk result (Reports (accesses_shown reported.old) (accesses_shown reported.new)
        (all_read (piece_reads (memory_at (S.record_of store.now).present)
        (view.piece piece.now)))) }
{
    match piece {
        Piece::Bytes(_) => Ok(()),
        Piece::Mark => Ok(()),
        Piece::Var { name, split: _ } => report_inside(alloc, reported, store, name),
        Piece::Status => {
            reported.reads(Key::Status)?;
            Ok(())
        }
    }
}

/// Reports what a word reads. Errors: `Memory`.
pub(crate) fn report_word<S: Store>(
    alloc: Global,
    reported: &mut Reported,
    store: &S,
    word: &Word,
) -> Result<(), StoreError>
    ensures { OnOk result (Reports (accesses_shown reported.old) (accesses_shown reported.new)
        (all_read (word_reads (memory_at (S.record_of store.now).present)
        (view.word word.now)))) }
{
    for piece in &word.pieces {
        report_piece(alloc, reported, store, piece)?;
    }
    Ok(())
}

/// Reports what words read. Errors: `Memory`.
pub(crate) fn report_words<S: Store>(
    alloc: Global,
    reported: &mut Reported,
    store: &S,
    words: &[Word],
) -> Result<(), StoreError>
    ensures { OnOk result (Reports (accesses_shown reported.old) (accesses_shown reported.new)
        (all_read (words_reads (memory_at (S.record_of store.now).present)
        (map view.word words.now)))) }
{
    for word in words {
        report_word(alloc, reported, store, word)?;
    }
    Ok(())
}
