//! Which variables are kept from one boot to the next.
ghost use Rattle.std.specs.Prelude.{◌≡◌, ◌≢◌, ◌++◌, ◌∷◌, Ok, [], filter, map, IfErr, IfOk, OnOk};
ghost use Rattle.std.specs.Option.{option_to_list};
ghost use Rattle.board_start.specs.Boards.{ListRead, board_of};
ghost use Rattle.envtools.specs.Scripting.{scripted};
ghost use Rattle.hushcheck.specs.Order.{once, with_names};
ghost use Rattle.rehearse_boots.specs.BootsShown.{started_shown};
ghost use Rattle.text.specs.TextsShown.{bytes_of_words, option_bytes, option_items};
ghost use Rattle.ubtool.specs.BootStarts.{boot_start};
ghost use Rattle.ubtool.specs.KeptNames.{AreKept, AreKeptBy, AreUnnamed, IsChangedCounting, alternative_in, changed_by, counted_in, differs, further_names, looked};
ghost use Rattle.ubtool.specs.LookedShown.{looked_shown};
ghost use Rattle.ubtool.specs.ListsShown.{list_shown};
ghost use Rattle.ubtool.specs.declared.rehearsal_error.RehearsalError.TheVariants.{Memory, Unnamed};

use crate::beginning::board_of;
use crate::boot_board::ListedBoard;
use crate::rehearsal_error::RehearsalError;
use board_start::BoardError;
use envtools::{Env, ScriptError, apply_script};
use hushcheck::{Changed, Rules, changed_names, names_once};
use rehearse_boots::{Board, Started};
use rehearse_terms::Shell;
use std::alloc::{AllocError, Global};

/// Adds a name, if the variable has another value after than before. Errors: memory ran out.
fn add_differing(
    alloc: Global,
    names: &mut Vec<Vec<u8>>,
    before: &Env,
    after: &Env,
    name: &[u8],
) -> Result<(), AllocError>
    ensures { OnOk result (bytes_of_words names.new.items
        ≡ bytes_of_words names.old.items ++ filter (differs before.now after.now) (name.now ∷ [])) }
{
    if before.get(name) != after.get(name) {
        names.push(Vec::from_slice(alloc, name)?)?;
    }
    Ok(())
}

/// Adds the names of these variables that have another value after than before. Errors: memory ran out.
fn add_all_differing(
    alloc: Global,
    names: &mut Vec<Vec<u8>>,
    before: &Env,
    after: &Env,
    pairs: &[(&[u8], &[u8])],
) -> Result<(), AllocError>
    ensures { OnOk result (bytes_of_words names.new.items
        ≡ bytes_of_words names.old.items ++ filter (differs before.now after.now) (map (λ p. p.0.now) pairs.now)) }
{
    for (name, _) in pairs {
        add_differing(alloc, names, before, after, name)?;
    }
    Ok(())
}

/// The environment that a script reaches, up to a line that is refused. Errors: memory ran out.
fn changed_env(env: &Env, changes: &[u8]) -> Result<Env, AllocError>
    ensures { IfOk result (λ after. after ≡ (scripted env.now changes.now).env) }
{
    let Ok(mut after) = env.copy() else {
        return Err(AllocError);
    };
    match apply_script(&mut after, changes) {
        Err(ScriptError::Memory) => Err(AllocError),
        _ => Ok(after),
    }
}

/// Adds the names of the variables that the system may change after a boot. Errors: memory ran out.
fn add_changed(
    alloc: Global,
    names: &mut Vec<Vec<u8>>,
    env: &Env,
    changes: Option<&[u8]>,
) -> Result<(), AllocError>
    ensures { OnOk result (bytes_of_words names.new.items
        ≡ bytes_of_words names.old.items ++ changed_by env.now (option_bytes changes.entry)) }
{
    let Some(changes) = changes else {
        return Ok(());
    };
    let after = changed_env(env, changes)?;
    add_all_differing(alloc, names, env, &after, &env.pairs()?)?;
    add_all_differing(alloc, names, env, &after, &after.pairs()?)
}

/// Adds a name, if there is one. Errors: memory ran out.
fn add_name(alloc: Global, names: &mut Vec<Vec<u8>>, name: Option<&[u8]>) -> Result<(), AllocError>
    ensures { OnOk result (bytes_of_words names.new.items
        ≡ bytes_of_words names.old.items ++ option_to_list (option_bytes name.entry)) }
{
    if let Some(name) = name {
        names.push(Vec::from_slice(alloc, name)?)?;
    }
    Ok(())
}

/// A copy of a name, if there is one. Errors: memory ran out.
fn copied_name(alloc: Global, name: Option<&[u8]>) -> Result<Option<Vec<u8>>, AllocError>
    ensures { IfOk result (λ copy. option_items copy ≡ option_bytes name.entry) }
{
    match name {
        None => Ok(None),
        Some(name) => Ok(Some(Vec::from_slice(alloc, name)?)),
    }
}

/// Adds the name of the counter of a list, if it has one and is no bad list. Errors: memory ran out.
fn add_counter(board: &ListedBoard<'_>, names: &mut Vec<Vec<u8>>) -> Result<(), AllocError>
    ensures { OnOk result (bytes_of_words names.new.items
        ≡ bytes_of_words names.old.items ++ counted_in (board_of (list_shown board.now.list))) }
{
    match board_of(board.alloc, &board.list) {
        Ok(listed) => add_name(board.alloc, names, listed.start.counter()),
        Err(BoardError::Memory) => Err(AllocError),
        Err(_) => Ok(()),
    }
}

/// Names, and further ones. Errors: memory ran out.
fn with_further(
    alloc: Global,
    mut names: Vec<Vec<u8>>,
    further: &[Vec<u8>],
) -> Result<Vec<Vec<u8>>, AllocError>
    ensures { IfOk result (λ all. bytes_of_words all.items ≡ bytes_of_words names.items ++ bytes_of_words further.now) }
{
    for name in further {
        names.push(Vec::from_slice(alloc, name)?)?;
    }
    Ok(names)
}

/// What the system may change after a boot, and the counter of the list. Errors: memory ran out.
fn further_names(
    board: &ListedBoard<'_>,
    env: &Env,
    changes: Option<&[u8]>,
) -> Result<Vec<Vec<u8>>, AllocError>
    ensures { IfOk result (λ names. bytes_of_words names.items
        ≡ further_names (list_shown board.now.list) env.now (option_bytes changes.entry)) }
{
    let mut names = Vec::new(board.alloc);
    add_changed(board.alloc, &mut names, env, changes)?;
    add_counter(board, &mut names)?;
    Ok(names)
}

/// Names, those that are changed in the first boot and in others, and further ones, each once. Errors: memory ran out.
fn all_names(
    alloc: Global,
    env: &Env,
    names: &[&[u8]],
    changed: Vec<Vec<u8>>,
    counting: Vec<Vec<u8>>,
    further: &[Vec<u8>],
) -> Result<Vec<Vec<u8>>, AllocError>
    ensures { IfOk result (λ all. bytes_of_words all.items ≡ with_names (once (map (λ n. n.now) names.now))
        (bytes_of_words changed.items ++ (bytes_of_words counting.items ++ bytes_of_words further.now))) }
{
    let others = with_further(alloc, counting, further)?;
    let all = with_further(alloc, changed, &others)?;
    names_once(alloc, names, &all, env.hasher())
}

/// What is looked through: what is asked for, and the alternative of the counter.
#[derive(Clone, Copy)]
pub(crate) struct Looked<'a> {
    name: &'a [u8],
    text: Option<&'a [u8]>,
    alternative: Option<&'a [u8]>,
}

/// What may change in other boots than the first one, if the board counts them: by the text that is asked for, and by
/// that of the alternative. Errors: memory ran out.
fn changed_counting(
    alloc: Global,
    rules: &Rules<'_>,
    env: &Env,
    looked: Looked<'_>,
) -> Result<Changed, AllocError>
    ensures { IfOk result (λ changed. IsChangedCounting rules.now env.now looked.entry.name.now
        (option_bytes looked.entry.text) (option_bytes looked.entry.alternative) changed) }
{
    let Some(alternative) = looked.alternative else {
        return Ok(Changed {
            names: Vec::new(alloc),
            more: false,
        });
    };
    let asked = changed_names(alloc, rules, env, looked.name, looked.text)?;
    let beyond = changed_names(alloc, rules, env, alternative, None)?;
    Ok(Changed {
        names: with_further(alloc, asked.names, &beyond.names)?,
        more: asked.more || beyond.more,
    })
}

/// The names of the variables that are kept from one boot to the next, if the first one starts so: those that are asked
/// for, those that the texts change that are looked through, and these further ones. Errors: `Unnamed`, if no name is
/// asked for and the texts may change others; `Memory`.
fn kept_from(
    alloc: Global,
    started: &Started,
    shell: Shell,
    looked: Looked<'_>,
    names: &[&[u8]],
    further: &[Vec<u8>],
) -> Result<Vec<Vec<u8>>, RehearsalError>
    ensures ok { IfOk result (λ kept. AreKept shell (looked_shown looked.entry) (map (λ n. n.now) names.now) (bytes_of_words further.now)
        (started_shown started.now) (bytes_of_words kept.items)) }
    ensures unnamed { IfErr result (λ e. e ≡ Unnamed
        → AreUnnamed shell (looked_shown looked.entry) (map (λ n. n.now) names.now) (Ok (started_shown started.now))) }
    ensures other { IfErr result (λ e. e ≢ Unnamed → e ≡ Memory) }
{
    let rules = Rules {
        devices: Some(&started.devices),
        shell: Some(shell),
        strict: false,
    };
    let text = started.text.as_deref();
    let (Ok(changed), Ok(counting)) = (
        changed_names(alloc, &rules, &started.env, looked.name, text),
        changed_counting(alloc, &rules, &started.env, looked),
    ) else {
        return Err(RehearsalError::Memory);
    };
    if names.is_empty() && (changed.more || counting.more) {
        return Err(RehearsalError::Unnamed);
    }
    match all_names(
        alloc,
        &started.env,
        names,
        changed.names,
        counting.names,
        further,
    ) {
        Ok(kept) => Ok(kept),
        Err(_) => Err(RehearsalError::Memory),
    }
}

/// The same of a list that has this alternative; if the first boot does not start, the names that are asked for. Errors:
/// `Unnamed`, `Memory`.
fn kept_of(
    board: &ListedBoard<'_>,
    env: &Env,
    shell: Shell,
    alternative: Option<&[u8]>,
    names: &[&[u8]],
    further: &[Vec<u8>],
) -> Result<Vec<Vec<u8>>, RehearsalError>
    requires { map (λ n. n.now) board.now.kept.now ≡ [] }
    ensures ok { IfOk result (λ kept. AreKeptBy shell
        (record { variable = board.now.name.now; text = option_bytes board.now.text; alternative = option_bytes alternative.entry })
        (map (λ n. n.now) names.now) (bytes_of_words further.now)
        (boot_start (list_shown board.now.list) board.now.list.taking board.now.name.now (option_bytes board.now.text) [] env.now)
        (bytes_of_words kept.items)) }
    ensures unnamed { IfErr result (λ e. e ≡ Unnamed → AreUnnamed shell
        (record { variable = board.now.name.now; text = option_bytes board.now.text; alternative = option_bytes alternative.entry })
        (map (λ n. n.now) names.now)
        (boot_start (list_shown board.now.list) board.now.list.taking board.now.name.now (option_bytes board.now.text) [] env.now)) }
    ensures other { IfErr result (λ e. e ≢ Unnamed → e ≡ Memory) }
{
    let Ok(found) = env.copy() else {
        return Err(RehearsalError::Memory);
    };
    match board.start(found) {
        Ok(started) => {
            let looked = Looked {
                name: board.name,
                text: board.text,
                alternative,
            };
            let kept = kept_from(board.alloc, &started, shell, looked, names, further);
            drop(started);
            kept
        }
        Err(BoardError::Memory) => Err(RehearsalError::Memory),
        Err(_) => {
            match names_once(board.alloc, names, &[], env.hasher()) {
                Ok(kept) => Ok(kept),
                Err(_) => Err(RehearsalError::Memory),
            }
        }
    }
}

/// The name of the alternative of a list, if it has one and is no bad list. Errors: memory ran out.
fn alternative_in(board: &ListedBoard<'_>) -> Result<Option<Vec<u8>>, AllocError>
    ensures { IfOk result (λ name. option_items name ≡ alternative_in (board_of (list_shown board.now.list))) }
{
    match board_of(board.alloc, &board.list) {
        Ok(listed) => copied_name(board.alloc, listed.start.alternative()),
        Err(BoardError::Memory) => Err(AllocError),
        Err(_) => Ok(None),
    }
}

/// The names of the variables that are kept from one boot to the next, of a board whose image has this environment.
/// Errors: those of `kept_of`.
pub(crate) fn kept_names(
    board: &ListedBoard<'_>,
    env: &Env,
    shell: Shell,
    names: &[&[u8]],
    changes: Option<&[u8]>,
) -> Result<Vec<Vec<u8>>, RehearsalError>
    requires { map (λ n. n.now) board.now.kept.now ≡ [] }
    ensures ok { IfOk result (λ kept. AreKeptBy shell
        (looked (list_shown board.now.list) board.now.name.now (option_bytes board.now.text)) (map (λ n. n.now) names.now)
        (further_names (list_shown board.now.list) env.now (option_bytes changes.entry))
        (boot_start (list_shown board.now.list) board.now.list.taking board.now.name.now (option_bytes board.now.text) [] env.now)
        (bytes_of_words kept.items)) }
    ensures unnamed { IfErr result (λ e. e ≡ Unnamed → AreUnnamed shell
        (looked (list_shown board.now.list) board.now.name.now (option_bytes board.now.text)) (map (λ n. n.now) names.now)
        (boot_start (list_shown board.now.list) board.now.list.taking board.now.name.now (option_bytes board.now.text) [] env.now)) }
    ensures other { IfErr result (λ e. e ≢ Unnamed → e ≡ Memory) }
{
    let (Ok(alternative), Ok(further)) = (alternative_in(board), further_names(board, env, changes))
    else {
        return Err(RehearsalError::Memory);
    };
    kept_of(board, env, shell, alternative.as_deref(), names, &further)
}
