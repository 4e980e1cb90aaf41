//! The text of a rehearsal, from one outcome that is asked for to the next.
ghost use Rattle.std.specs.Prelude.{◌≡◌, ◌+◌, ◌<◌, ◌≤◌, ◌^◌, ◌∷◌, [], OnOk, IfOk, IsSome, unwrap_or};
ghost use Rattle.std.specs.FinMap.{get};
ghost use Rattle.rehearse_terms.specs.Bounds.{most_steps};
ghost use Rattle.rehearse_rules.specs.Runs.{run_on};
ghost use Rattle.rehearse_machine.specs.Came.{settled};
ghost use Rattle.rehearse_machine.specs.MovesShown.{Keeps, limits_of, request_shown};
ghost use Rattle.rehearse_machine.specs.Turning.{IsSound, to_come};
ghost use Rattle.rehearse_machine.specs.Machine.{HasAsk, IsAsked, IsAsking, Starts, Stops, TakesOutcome, asked_at, outcome_when, stop_of};
ghost use Rattle.rehearse_machine.specs.Tasks.{source_shown, task_in, text_by};

use crate::ask::{Ask, Step};
use crate::by_shell::unread;
use crate::frames::text;
use crate::machine::drive;
use crate::outcomes::answer;
use crate::source::Source;
use bootstore_state::{Store, StoreError};
use device_list::Devices;
use envtools::Env;
use hushlang::Fields;
use hushlang_shells::{TextRead, read_first};
use rehearse_rules::Halt;
use rehearse_terms::{RunBounds, Written};
use std::alloc::Global;
use std::rc::Rc;

/// Why a text has stopped.
#[derive(Drop)]
pub enum Stop {
    /// A device command asks for an outcome.
    Asks,
    /// The run has ended.
    Ends(Halt),
}

/// Where a text has stopped.
#[derive(Drop)]
pub enum Stopped<'a> {
    /// This device command asks for an outcome.
    Asks(Ask<'a>),
    /// The run has ended.
    Ends(Halt),
}

/// What a rehearsal borrows.
#[derive(Clone, Copy)]
pub struct Rehearsal<'a> {
    /// The allocator.
    pub alloc: Global,
    /// The environment at the start of each run.
    pub env: &'a Env,
    /// The device commands.
    pub devices: &'a Devices,
    /// What is run.
    pub source: Source<'a>,
    /// The bounds of a run.
    pub bounds: RunBounds,
    /// What becomes of what a run writes.
    pub written: Written,
}

impl<'a> Rehearsal<'a> {
    ghost use Rattle.std.specs.Prelude.{IfSome, option_map, Some, None};
    ghost use Rattle.rehearse_machine.specs.Tasks.{task_found, task_from, text_in};
    ghost use Rattle.rehearse_rules.specs.Runs.{unheard};

    /// The rehearsal of a given text, or else of the text of a variable, if it is set. What its runs write is kept.
    pub fn of(
        alloc: Global,
        env: &'a Env,
        devices: &'a Devices,
        source: Source<'a>,
        bounds: RunBounds,
    ) -> Option<Self>
        ensures found { option_map task_in result
            ≡ task_found env.now devices.now (source_shown source.entry) bounds }
        ensures shown { IfSome result
            (λ r. task_in r ≡ task_from env.now devices.now (source_shown source.entry) bounds) }
        ensures there { IfSome result (λ _. IsSome (text_in env.now (source_shown source.entry))) }
        ensures missing { result ≡ None → text_in env.now (source_shown source.entry) ≡ None }
    {
        if source.text.is_none() && env.get(source.name).is_none() {
            return None;
        }
        Some(Rehearsal {
            alloc,
            env,
            devices,
            source,
            bounds,
            written: Written::Kept,
        })
    }

    /// The same, with what its runs write dropped.
    pub fn unheard(&self) -> Self
        ensures { task_in result ≡ unheard (task_in self.now) }
    {
        Rehearsal {
            alloc: self.alloc,
            env: self.env,
            devices: self.devices,
            source: self.source,
            bounds: self.bounds,
            written: Written::Dropped,
        }
    }
}

/// Goes on until a device command asks, or the run ends.
fn go_on<'a, S: Store>(rehearsal: &Rehearsal<'a>, store: &mut S) -> Result<Stopped<'a>, StoreError>
    requires sound { IsSound (S.record_of store.old).present }
    requires steps { (S.record_of store.old).present.steps ≤ rehearsal.now.bounds.steps }
    requires begun { (S.record_of store.old).begun + rehearsal.now.bounds.steps + 1 < 2 ^ 64 }
    ensures stops { IfOk result
        (λ stopped. Stops (limits_of rehearsal.now.devices.now rehearsal.now.bounds)
        (stop_of stopped) (to_come (limits_of rehearsal.now.devices.now rehearsal.now.bounds)
        (S.record_of store.old).present) (S.record_of store.new).present) }
    ensures asks { IfOk result
        (λ stopped. HasAsk (limits_of rehearsal.now.devices.now rehearsal.now.bounds) stopped
        (S.record_of store.new).present) }
    ensures kept { OnOk result (Keeps (S.record_of store.old) (S.record_of store.new)) }
    ensures within { OnOk result
        ((S.record_of store.new).present.steps ≤ rehearsal.now.bounds.steps) }
    ensures grows { OnOk result
        ((S.record_of store.old).present.steps ≤ (S.record_of store.new).present.steps) }
{
    let mut fields = Fields::new(rehearsal.alloc);
    match drive(
        rehearsal.alloc,
        store,
        &mut fields,
        rehearsal.devices,
        rehearsal.bounds,
    )? {
        Step::Going => unreachable!(),
        Step::Asks(ask) => Ok(Stopped::Asks(ask)),
        Step::Ends(halt) => Ok(Stopped::Ends(halt)),
    }
}

/// The text that is given, or else that of the variable, or the empty text if it is not set.
fn text_of<'s, S: Store>(store: &'s S, source: Source<'s>) -> &'s [u8]
    ensures { result.now ≡ unwrap_or (text_by (source_shown source.entry).given
        (get (S.record_of store.now).present.environment source.entry.name.now)) [] }
{
    if let Some(text) = source.text {
        return text;
    }
    match store.get_env(source.name) {
        Some(value) => value,
        None => &[],
    }
}

/// Starts the text that is given, or else that of the variable: it runs from here, or the run has ended
/// so. A variable that is not set is run as the empty text. Errors: `Memory`.
pub fn start<S: Store>(rehearsal: &Rehearsal<'_>, store: &mut S) -> Result<Option<Halt>, StoreError>
    ensures starts { IfOk result
        (λ ended. Starts (task_in rehearsal.now) ended (S.record_of store.new).present) }
    ensures marks { OnOk result ((S.record_of store.new).marked ≡ []) }
    ensures begun { OnOk result ((S.record_of store.new).begun ≡ (S.record_of store.old).begun) }
    ensures steps { OnOk result ((S.record_of store.new).present.steps ≡ 0) }
{
    let shell = rehearsal.bounds.shell();
    store.start(rehearsal.env, rehearsal.written)?;
    let text_found = text_of(store, rehearsal.source);
    match read_first(rehearsal.alloc, shell, text_found)? {
        TextRead::Runs(script) => {
            store.push(text(Rc::new(rehearsal.alloc, script)?))?;
            Ok(None)
        }
        TextRead::Fails => {
            store.set_status(1)?;
            Ok(Some(Halt::End(1)))
        }
        TextRead::Panics => {
            let name = Vec::from_slice(rehearsal.alloc, rehearsal.source.name)?;
            Ok(Some(Halt::Panic(name)))
        }
        TextRead::Unread => {
            let name = Vec::from_slice(rehearsal.alloc, rehearsal.source.name)?;
            Ok(Some(unread(shell, name)))
        }
    }
}

/// Starts the text that is given, or else that of the variable, and goes on until a device command
/// asks, or the run ends. A variable that is not set is run as the empty text. Errors: `Memory`.
pub fn begin<'a, S: Store>(
    rehearsal: &Rehearsal<'a>,
    store: &mut S,
) -> Result<Stopped<'a>, StoreError>
    requires { (S.record_of store.old).begun + most_steps + 1 < 2 ^ 64 }
    ensures stops { IfOk result
        (λ stopped. Stops (task_in rehearsal.now).limits (stop_of stopped)
        (λ w. settled (run_on (task_in rehearsal.now) w)) (S.record_of store.new).present) }
    ensures asks { IfOk result
        (λ stopped. HasAsk (task_in rehearsal.now).limits stopped
        (S.record_of store.new).present) }
    ensures marks { OnOk result ((S.record_of store.new).marked ≡ []) }
    ensures begun { OnOk result
        ((S.record_of store.new).begun ≡ (S.record_of store.old).begun +
        (S.record_of store.new).present.steps) }
    ensures within { OnOk result ((S.record_of store.new).present.steps ≤ most_steps) }
{
    let _bound = rehearsal.bounds.steps();
    match start(rehearsal, store)? {
        None => go_on(rehearsal, store),
        Some(halt) => Ok(Stopped::Ends(halt)),
    }
}

/// Gives the device command that asks an outcome. Errors: `Memory`.
fn give_outcome<'a, S: Store>(
    rehearsal: &Rehearsal<'a>,
    store: &mut S,
    ask: Ask<'a>,
    success: bool,
) -> Result<Step<'a>, StoreError>
    requires asks { IsAsking (task_in rehearsal.now).limits (S.record_of store.old).present }
    requires this { IsAsked (task_in rehearsal.now).limits (request_shown ask)
        (S.record_of store.old).present }
    ensures { IfOk result
        (λ step. TakesOutcome (task_in rehearsal.now).limits (outcome_when success)
        (S.record_of store.old) (S.record_of store.new) step) }
{
    answer(rehearsal.alloc, store, ask, success)
}

/// Gives the device command that asks an outcome, and goes on until the next one asks, or the run
/// ends. Errors: `Memory`.
pub fn resume<'a, S: Store>(
    rehearsal: &Rehearsal<'a>,
    store: &mut S,
    ask: Ask<'a>,
    success: bool,
) -> Result<Stopped<'a>, StoreError>
    requires asks { IsAsking (task_in rehearsal.now).limits (S.record_of store.old).present }
    requires this { IsAsked (task_in rehearsal.now).limits (request_shown ask)
        (S.record_of store.old).present }
    requires begun { (S.record_of store.old).begun + most_steps + 1 < 2 ^ 64 }
    ensures stops { IfOk result
        (λ stopped. Stops (task_in rehearsal.now).limits (stop_of stopped)
        (λ w. asked_at (task_in rehearsal.now).limits (S.record_of store.old).present
        (outcome_when success ∷ w)) (S.record_of store.new).present) }
    ensures asks { IfOk result
        (λ stopped. HasAsk (task_in rehearsal.now).limits stopped
        (S.record_of store.new).present) }
    ensures marks { OnOk result ((S.record_of store.new).marked ≡ (S.record_of store.old).marked) }
    ensures begun { OnOk result
        ((S.record_of store.new).begun + (S.record_of store.old).present.steps
        ≡ (S.record_of store.old).begun + (S.record_of store.new).present.steps) }
    ensures within { OnOk result ((S.record_of store.new).present.steps ≤ most_steps) }
    ensures grows { OnOk result
        ((S.record_of store.old).present.steps ≤ (S.record_of store.new).present.steps) }
{
    let _bound = rehearsal.bounds.steps();
    match give_outcome(rehearsal, store, ask, success)? {
        Step::Going => go_on(rehearsal, store),
        Step::Asks(_) => unreachable!(),
        Step::Ends(halt) => Ok(Stopped::Ends(halt)),
    }
}
