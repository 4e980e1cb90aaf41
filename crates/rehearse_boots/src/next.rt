//! What the next boot finds saved, after an ending of a boot.
ghost use Rattle.std.specs.Prelude.{◌≡◌, drop, map, option_map, IfErr, IfOk};
ghost use Rattle.rehearse_boots.specs.Boots as spec;
ghost use Rattle.rehearse_boots.specs.BootsShown.{kept_shown};
ghost use Rattle.rehearse_boots.specs.NextShown.{next_shown};
ghost use Rattle.rehearse_boots.specs.declared.boots_error.BootsError.TheVariants.{Memory};
ghost use Rattle.rehearse_boots.specs.Exploring.{asked_in};
ghost use Rattle.rehearse_rules.specs.EndingsShown.{halt_shown};
ghost use Rattle.rehearse_states.specs.RowsShown.{row_shown, value_shown};
ghost use Rattle.text.specs.TextsShown.{bytes_of_words};

use crate::boot::Telling;
use crate::boots_error::BootsError;
use crate::found::copied;
use crate::kept::{add_kept, has_room, values_kept, with_kept};
use device_list::BoardEnd;
use envtools::apply_script;
use rehearse_rules::Halt;
use rehearse_states::Row;
use std::alloc::AllocError;

/// What is saved after an ending, and, if the board has booted and a script is given, after its changes.
#[derive(Drop)]
pub(crate) struct Next {
    pub(crate) saved: Vec<Vec<u8>>,
    pub(crate) changed: Option<Vec<Vec<u8>>>,
}

/// Whether the image has room for what is saved. Errors: memory ran out.
fn is_saved(telling: &Telling<'_>, after: &[Vec<u8>]) -> Result<bool, AllocError>
    ensures { IfOk result (λ saved. saved ≡ spec.has_room (asked_in telling.now).room
        (spec.found_by (asked_in telling.now) (bytes_of_words after.now))) }
{
    let found = with_kept(telling.alloc, telling.env, telling.ask.kept, after)?;
    Ok(has_room(telling.ask.room, &found))
}

/// What is saved, if the image has room for it; else what was saved before. Errors: memory ran out.
pub(crate) fn saved_if(
    telling: &Telling<'_>,
    before: &[Vec<u8>],
    after: Vec<Vec<u8>>,
) -> Result<Vec<Vec<u8>>, AllocError>
    ensures { IfOk result (λ saved. kept_shown saved
        ≡ spec.saved_if (asked_in telling.now) (bytes_of_words before.now) (kept_shown after)) }
{
    if is_saved(telling, &after)? {
        return Ok(after);
    }
    copied(telling.alloc, before)
}

/// The copies that a run leaves: the values after those of so many names.
fn copies_of(values: &[Option<Vec<u8>>], count: usize) -> &[Option<Vec<u8>>]
    ensures { map value_shown result.now ≡ drop count (map value_shown values.now) }
{
    if count < values.len() {
        return &values[count..];
    }
    &[]
}

/// What is saved after an ending of a boot whose run began with this saved. Errors: memory ran out.
fn saved_after(
    telling: &Telling<'_>,
    saved: &[Vec<u8>],
    row: &Row,
) -> Result<Vec<Vec<u8>>, AllocError>
    ensures { IfOk result (λ next. kept_shown next
        ≡ spec.saved_after (asked_in telling.now) (bytes_of_words saved.now) (row_shown row.now)) }
{
    let copies = copies_of(&row.run_end.values, telling.ask.names.len());
    let mut after = Vec::new(telling.alloc);
    add_kept(telling.alloc, &mut after, saved, copies)?;
    saved_if(telling, saved, after)
}

/// What is saved after the changes of a script, none of whose lines is refused. Errors: `Memory`, also for a line that
/// is refused: the script was tried before.
fn changed_by(
    telling: &Telling<'_>,
    saved: &[Vec<u8>],
    script: &[u8],
) -> Result<Vec<Vec<u8>>, BootsError>
    ensures ok { IfOk result (λ changed. kept_shown changed
        ≡ spec.changed_by (asked_in telling.now) (bytes_of_words saved.now) script.now) }
    ensures err { IfErr result (λ e. e ≡ Memory) }
{
    let mut found = with_kept(telling.alloc, telling.env, telling.ask.kept, saved)?;
    let Ok(()) = apply_script(&mut found, script) else {
        return Err(BootsError::Memory);
    };
    let after = values_kept(telling.alloc, &found, telling.ask.kept)?;
    Ok(saved_if(telling, saved, after)?)
}

/// Whether a board has booted that ends so.
fn has_booted(halt: &Halt) -> bool
    ensures { result ≡ spec.has_booted (halt_shown halt.now) }
{
    match halt {
        Halt::Finished(BoardEnd::Boots, _) => true,
        _ => false,
    }
}

/// What is saved after the changes of the script, if there is one and the board has booted. Errors: `Memory`.
fn changed_if(
    telling: &Telling<'_>,
    saved: &[Vec<u8>],
    is_booted: bool,
) -> Result<Option<Vec<Vec<u8>>>, BootsError>
    ensures ok { IfOk result (λ changed. option_map kept_shown changed
        ≡ spec.changed_if (asked_in telling.now) (bytes_of_words saved.now) is_booted (asked_in telling.now).changes) }
    ensures err { IfErr result (λ e. e ≡ Memory) }
{
    match (is_booted, telling.ask.changes) {
        (true, Some(script)) => Ok(Some(changed_by(telling, saved, script)?)),
        _ => Ok(None),
    }
}

/// What the boots after an ending find saved, of a boot whose run began with this saved. Errors: `Memory`.
pub(crate) fn next_of(
    telling: &Telling<'_>,
    saved: &[Vec<u8>],
    row: &Row,
) -> Result<Next, BootsError>
    ensures ok { IfOk result (λ next. next_shown next
        ≡ spec.next_of (asked_in telling.now) (bytes_of_words saved.now) (row_shown row.now)) }
    ensures err { IfErr result (λ e. e ≡ Memory) }
{
    let saved = saved_after(telling, saved, row)?;
    let changed = changed_if(telling, &saved, has_booted(&row.run_end.halt))?;
    Ok(Next { saved, changed })
}
