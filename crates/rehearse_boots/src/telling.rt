//! The boots of a board, from the environment of its image to the lines.
ghost use Rattle.std.specs.Prelude.{◌≡◌, ◌++◌, map, option_map, IfErr, IfOk};
ghost use Rattle.device_list.specs.Saving.{saved_name};
ghost use Rattle.rehearse_boots.specs.BootsShown.{asked_of};
ghost use Rattle.rehearse_boots.specs.Exploring.{ChecksChanges};
ghost use Rattle.rehearse_boots.specs.TellingBoots.{AreLines, IsUntold, RefusesBoots, TellsBoots};
ghost use Rattle.text.specs.TextsShown.{bytes_of_words};

use crate::answering::{Answer, answered};
use crate::ask::{Board, BootsAsk};
use crate::boot::Telling;
use crate::boots_error::BootsError;
use crate::exploring::explore;
use crate::kept::{room_kept, values_kept};
use bootstore_state::Store;
use device_list::saved_name;
use envtools::{Env, ScriptError, apply_script};
use output::{Out, write_all};
use std::alloc::{AllocError, Global};

/// Tries the script of changes. Errors: `Changes`, `Memory`.
fn check_changes(env: &Env, changes: Option<&[u8]>) -> Result<(), BootsError>
    ensures { ChecksChanges env.now (option_map (λ n. n.now) changes.entry) result }
{
    let Some(changes) = changes else {
        return Ok(());
    };
    let Ok(mut tried) = env.copy() else {
        return Err(BootsError::Memory);
    };
    match apply_script(&mut tried, changes) {
        Ok(()) => Ok(()),
        Err(ScriptError::Memory) => Err(BootsError::Memory),
        Err(fault) => Err(BootsError::Changes(fault)),
    }
}

/// The names of the copies of these variables. Errors: memory ran out.
fn saved_names(alloc: Global, names: &[&[u8]]) -> Result<Vec<Vec<u8>>, AllocError>
    ensures { IfOk result (λ copies. bytes_of_words copies.items ≡ map saved_name (map (λ n. n.now) names.now)) }
{
    let mut copies = Vec::new(alloc);
    for name in names {
        copies.push(saved_name(alloc, name)?)?;
    }
    Ok(copies)
}

/// These names, followed by the names of copies. Errors: memory ran out.
fn with_copies<'a>(
    alloc: Global,
    names: &[&'a [u8]],
    copies: &'a [Vec<u8>],
) -> Result<Vec<&'a [u8]>, AllocError>
    ensures { IfOk result (λ all. map (λ n. n.now) all.items ≡ map (λ n. n.now) names.now ++ bytes_of_words copies.now) }
{
    let mut all = Vec::from_slice(alloc, names)?;
    for copy in copies {
        all.push(copy.as_slice())?;
    }
    Ok(all)
}

/// What is written of the boots of a board whose image has this environment. Errors: those of `boots_env`, without
/// `Write`.
fn answer_of<S: Store, B: Board>(
    alloc: Global,
    env: &Env,
    board: &B,
    ask: &BootsAsk<'_>,
) -> Result<Answer, BootsError>
    ensures ok { IfOk result (λ a. AreLines (B.start_of board.now) (asked_of env.now ask.now) ask.now.boots a.text.items a.holds) }
    ensures err { IfErr result (λ e. IsUntold (B.start_of board.now) (asked_of env.now ask.now) ask.now.states
        ask.now.work ask.now.memory ask.now.boots e) }
{
    check_changes(env, ask.changes)?;
    let first = values_kept(alloc, env, ask.kept)?;
    let copies = saved_names(alloc, ask.kept)?;
    let apart = with_copies(alloc, ask.names, &copies)?;
    let room = room_kept(alloc, env, ask.kept, ask.room)?;
    let telling = Telling {
        alloc,
        env,
        ask,
        apart: &apart,
        first: &first,
        bounds: ask.bounds.with_room(room),
    };
    let explored = explore::<S, B>(&telling, board)?;
    Ok(answered(&telling, &explored)?)
}

/// Writes how the boots of a board follow one another, or whether each leads to an ending that is expected. The first finds
/// this environment saved. A boot is followed, after each of its endings, by the one that finds saved what its start or the
/// run has saved last, or what was saved before, if neither has saved. What the image has no room for is not saved: a call of
/// a run that would save it fails, without an outcome. After an ending that boots, a boot is followed also by the one that
/// finds the changes that are given, which the system may make. Boots that find the same saved are one; they are numbered in
/// the order in which they are found.
///
/// If no ending is expected, writes of each boot a line, what it finds saved otherwise than the first one, and its endings,
/// each with the number of the boot that follows, the values that are asked for, and what fails; then how many there are.
/// The answer is true.
///
/// If one is expected, the answer is whether each boot leads to it, by boots in which nothing fails. If so, writes how many
/// boots there are. If not, writes the boots on a way to the first one that does not, each with the ending that leads on;
/// then this boot with all of its endings, and a line with its number.
///
/// Refusals, in order: `Changes`; then of the first boot that is refused: `Board`, as the board says; `NoSuchVariable`;
/// `States`, `Steps`, `Bytes`, and `Boots`, with nothing written; then `Write`, with a prefix of the lines written.
/// `Memory` comes wherever a growth is made.
pub fn boots_env<S: Store, B: Board, O: Out>(
    alloc: Global,
    env: &Env,
    board: &B,
    ask: &BootsAsk<'_>,
    out: &mut O,
) -> Result<bool, BootsError>
    ensures ok { IfOk result (λ holds. TellsBoots (B.start_of board.now) (asked_of env.now ask.now) ask.now.boots
        (O.sink out.old) (O.sink out.new) holds) }
    ensures err { IfErr result (λ e. RefusesBoots (B.start_of board.now) (asked_of env.now ask.now)
        ask.now.states ask.now.work ask.now.memory ask.now.boots (O.sink out.old) (O.sink out.new) e) }
{
    let answer = match answer_of::<S, B>(alloc, env, board, ask) {
        Ok(answer) => answer,
        Err(error) => return Err(error),
    };
    match write_all(out, &answer.text) {
        Ok(()) => Ok(answer.holds),
        Err(_) => Err(BootsError::Write),
    }
}
