//! The rehearsal of an environment, from its device list to the listing.
ghost use Rattle.std.specs.Prelude.{IfOk, IfErr, map};
ghost use Rattle.text.specs.TextsShown.{option_bytes};
ghost use Rattle.rehearse_terms.specs.Asking.{Alone, Listed, page_of};
ghost use Rattle.rehearse_terms.specs.Asking.{HasRoom};
ghost use Rattle.rehearse_terms.specs.WantedShown.{wanted_slices};
ghost use Rattle.rehearse_machine.specs.Tasks.{source_shown, task_found};
ghost use Rattle.rehearse_runs.specs.AskShown.{asking_for, asking_of, text_given};
ghost use Rattle.rehearse_runs.specs.RehearsedEnvironment.{Begins, Refuses, RefusesRuns, Rehearses, task_asked};

use crate::ask::{Ask, digits_of};
use crate::listing::{Finish, write_listing};
use crate::one_run::write_run;
use crate::runs::Runs;
use bootstore_state::Store;
use device_list::Devices;
use envtools::Env;
use output::Out;
use rehearse_machine::{Rehearsal, Source};
use rehearse_rules::RehearseError;
use rehearse_terms::{Bounds, Page, RunBounds, Wanted};
use std::alloc::Global;

/// The runs of a listing. Errors: `NoSuchVariable`, `NotARun`, `Memory`.
fn begin_runs<'a, S: Store>(
    alloc: Global,
    env: &'a Env,
    devices: &'a Devices,
    source: Source<'a>,
    bounds: Bounds,
    after: Option<&[u8]>,
) -> Result<Runs<'a, S>, RehearseError>
    ensures ok { IfOk result (λ r. Begins env.now devices.now (source_shown source.entry) bounds
        (option_bytes after.entry) r) }
    ensures err { IfErr result (λ e. RefusesRuns env.now devices.now (source_shown source.entry) bounds
        (option_bytes after.entry) e) }
{
    match after {
        None => Runs::of(alloc, env, devices, source, bounds),
        Some(word) => Runs::behind(alloc, env, devices, source, bounds, digits_of(word)),
    }
}

/// Writes the listing of runs. Errors: `NoSuchVariable`, `NotARun`, `Memory`, `Write`.
fn list_runs<'x, S: Store, O: Out>(
    alloc: Global,
    env: &'x Env,
    devices: &'x Devices,
    source: Source<'x>,
    bounds: Bounds,
    after: Option<&[u8]>,
    page: Page,
    names: &[&[u8]],
    out: &mut O,
) -> Result<Finish, RehearseError>
    requires { HasRoom page }
    ensures ok { let asking = asking_for source.entry.name.now bounds
        (Listed (option_bytes after.entry) page) (map (λ n. n.now) names.now) in
        IfOk result (λ finish. Rehearses
        (task_found env.now devices.now (source_shown source.entry) bounds) asking
        (O.sink out.old) (O.sink out.new) finish) }
    ensures err { let asking = asking_for source.entry.name.now bounds
        (Listed (option_bytes after.entry) page) (map (λ n. n.now) names.now) in
        IfErr result (λ e. Refuses
        (task_found env.now devices.now (source_shown source.entry) bounds) asking
        (O.sink out.old) (O.sink out.new) e) }
{
    let mut runs = begin_runs::<S>(alloc, env, devices, source, bounds, after)?;
    write_listing(&mut runs, names, page, out)
}

/// Writes the run of a word, and `done`. Errors: `NoSuchVariable`, `NotARun`, `Memory`, `Write`.
fn list_one<S: Store, O: Out>(
    alloc: Global,
    env: &Env,
    devices: &Devices,
    source: Source<'_>,
    bounds: RunBounds,
    word: &[u8],
    names: &[&[u8]],
    out: &mut O,
) -> Result<Finish, RehearseError>
    ensures ok { let asking = asking_for source.entry.name.now bounds (Alone word.now)
        (map (λ n. n.now) names.now) in
        IfOk result (λ finish. Rehearses
        (task_found env.now devices.now (source_shown source.entry) bounds) asking
        (O.sink out.old) (O.sink out.new) finish) }
    ensures err { let asking = asking_for source.entry.name.now bounds (Alone word.now)
        (map (λ n. n.now) names.now) in
        IfErr result (λ e. Refuses
        (task_found env.now devices.now (source_shown source.entry) bounds) asking
        (O.sink out.old) (O.sink out.new) e) }
{
    let Some(rehearsal) = Rehearsal::of(alloc, env, devices, source, bounds) else {
        return Err(RehearseError::NoSuchVariable);
    };
    match write_run::<S, O>(&rehearsal, word, names, out) {
        Ok(()) => Ok(Finish::Done),
        Err(error) => Err(error),
    }
}

/// Writes the listing of the runs that are asked for, or the record of the one run, and `done`.
/// Refusals in order: the variable if no text is given, the word, with nothing written; then `Write`
/// during the listing, and `Memory` wherever a growth is made.
pub fn rehearse_env<'x, S: Store, O: Out>(
    alloc: Global,
    env: &'x Env,
    devices: &Devices,
    ask: &Ask<'x>,
    out: &mut O,
) -> Result<Finish, RehearseError>
    requires { HasRoom (page_of (wanted_slices ask.now.wanted)) }
    ensures ok { let asking = asking_of ask.now in
        IfOk result (λ finish. Rehearses (task_asked env.now devices.now (text_given ask.now) asking)
        asking (O.sink out.old) (O.sink out.new) finish) }
    ensures err { let asking = asking_of ask.now in
        IfErr result (λ e. Refuses (task_asked env.now devices.now (text_given ask.now) asking)
        asking (O.sink out.old) (O.sink out.new) e) }
{
    let source = Source {
        name: ask.name,
        text: ask.text,
    };
    match ask.wanted {
        Wanted::Listing {
            bounds,
            after,
            page,
        } => list_runs::<S, O>(
            alloc, env, devices, source, bounds, after, page, ask.names, out,
        ),
        Wanted::Word { bounds, word } => {
            list_one::<S, O>(alloc, env, devices, source, bounds, word, ask.names, out)
        }
    }
}
