//! The runs of a text: of a variable's, or of one that is given.
ghost use Rattle.std.specs.Prelude.{◌≡◌, [], false, true, map, option_map, IfSome, IsSome, None};
ghost use Rattle.text.specs.TextsShown.{option_bytes};
ghost use Rattle.rehearse_terms.specs.Bounds.{are_bounds};
ghost use Rattle.rehearse_rules.specs.Listing.{outcome_digit};
ghost use Rattle.envtools.specs.Environment.{value_of};
ghost use Rattle.rehearse_machine.specs.Tasks.{source_shown, task_found, task_from, task_in, task_set, task_shown, text_in};
ghost use Rattle.rehearse_runs.specs.RunsShown.{has_words, last_given, outcomes, words_made, work_of};
ghost use Rattle.std.specs.Borrow.{sem};

use crate::failing::{is_at_most, unexpected};
use crate::searching::{Digits, first_run, next_run};
use crate::walking::{Walked, walk_to};
use bootstore_state::Store;
use device_list::Devices;
use envtools::Env;
use output::Bytes;
use rehearse_machine::{Ask, Rehearsal, Source};
use rehearse_records::RunView;
use rehearse_rules::{Halt, RehearseError};
use rehearse_terms::Bounds;
use std::alloc::Global;
use std::marker::Model;

/// How far a rehearsal is.
#[derive(Drop)]
enum Phase {
    /// No run was found yet.
    Fresh,
    /// The store holds a run.
    At(Halt),
    /// There is no further run.
    Over,
    /// Memory ran out.
    Failed,
}

/// The rehearsal whose runs are listed, if a text is given or the variable is set.
pub(crate) fn rehearsal_of<'a>(
    alloc: Global,
    env: &'a Env,
    devices: &'a Devices,
    source: Source<'a>,
    bounds: Bounds,
) -> Option<Rehearsal<'a>>
    ensures found { option_map task_in result
        ≡ task_found env.now devices.now (source_shown source.entry) bounds }
    ensures shown { IfSome result
        (λ r. task_in r ≡ task_from env.now devices.now (source_shown source.entry) bounds) }
    ensures bounds { IfSome result
        (λ r. are_bounds r.bounds.devices r.bounds.steps r.bounds.failures ≡ true) }
    ensures there { IfSome result (λ _. IsSome (text_in env.now (source_shown source.entry))) }
    ensures missing { result ≡ None → text_in env.now (source_shown source.entry) ≡ None }
{
    let _bound = bounds.devices();
    Rehearsal::of(alloc, env, devices, source, bounds.of_run())
}

/// Makes digits those of another word.
fn set_to(digits: &mut Digits, other: &Digits)
    ensures { digits.new.items ≡ other.now.items }
{
    let _len = other.len();
    digits.clear();
    let _fits = digits.extend(other.as_slice());
}

/// The same digits.
fn copy_of(digits: &Digits) -> Digits
    ensures { result.items ≡ digits.now.items }
{
    let mut copy = Bytes::new();
    set_to(&mut copy, digits);
    copy
}

/// The runs of a text of which no more answers are unexpected than the bounds allow, in dictionary order of their words,
/// success before failure.
#[derive(Drop)]
pub struct Runs<'a, S: Store> {
    rehearsal: Rehearsal<'a>,
    start: Option<Digits>,
    store: S,
    word: Digits,
    /// Where the word of the next run is looked for, so that `word` stays as it is if memory runs out.
    next: Digits,
    asks: Vec<Ask<'a>>,
    has_given: bool,
    phase: Phase,
}

impl<'a, S: Store> Model for Runs<'a, S> {
    ghost use Rattle.std.specs.Prelude.{◌≤◌};
    ghost use Rattle.rehearse_terms.specs.Bounds.{most_run_devices};
    ghost use Rattle.rehearse_runs.specs.RunsShown.{RunsShown, outcomes, given_if, to_come_after};

    ghost Value = { RunsShown };

    ghost use Rattle.rehearse_machine.specs.Tasks.{task_in};
    ghost use Rattle.rehearse_runs.specs.Phases.{shown_at, start_of, StandsAt, AreDigits, IsRunIf, HasBegunIf, KeepsAt};
    ghost use Rattle.rehearse_runs.specs.Searching.{requests};

    ghost view = { λ r. shown_at (task_in r.rehearsal) (start_of r.start) r.has_given
        (outcomes r.word.items) (S.record_of r.store).begun r.phase };

    ghost invariant = { λ r.
        AreDigits r.word.items
        × IsRunIf r.has_given (task_in r.rehearsal) (outcomes r.word.items)
        × StandsAt (task_in r.rehearsal) r.has_given (outcomes r.word.items)
        (S.record_of r.store) r.phase
        × HasBegunIf r.phase (task_in r.rehearsal) (start_of r.start)
        (given_if r.has_given (outcomes r.word.items))
        (to_come_after r.has_given (task_in r.rehearsal) (outcomes r.word.items))
        (S.record_of r.store).begun
        × (task_in r.rehearsal).limits.device_bound ≤ most_run_devices
        × KeepsAt r.phase (task_in r.rehearsal).limits (requests r.asks.items)
        (S.record_of r.store) };
}

impl<'a, S: Store> Runs<'a, S> {
    ghost use Rattle.rehearse_runs.specs.RunsShown.{RunsShown, new_runs};
    ghost use Rattle.std.specs.Prelude.{IfOk, OnOk, IfErr, OnErr, Some};
    ghost use Rattle.rehearse_rules.specs.declared.rehearse_error.RehearseError.TheVariants.{NoSuchVariable};
    ghost use Rattle.rehearse_runs.specs.Giving.{Advances, IsView, Lent};
    ghost use Rattle.rehearse_runs.specs.Behind.{GoesOnBehind, RefusesWord};
    ghost use Rattle.rehearse_rules.specs.Runs.{unheard};

    /// The runs of the text of a variable. Takes no memory. Errors: `NoSuchVariable`.
    pub fn new(
        alloc: Global,
        env: &'a Env,
        devices: &'a Devices,
        name: &'a [u8],
        bounds: Bounds,
    ) -> Result<Self, RehearseError>
        ensures ok { IfOk result (λ r. r
            ≡ new_runs (task_shown env.now devices.now name.now bounds)) }
        ensures set { OnOk result (task_set env.now devices.now name.now bounds
            ≡ Some (task_shown env.now devices.now name.now bounds)) }
        ensures err { IfErr result
            (λ e. (e ≡ NoSuchVariable) × (value_of env.now name.now ≡ None)) }
        ensures unset { OnErr result (task_set env.now devices.now name.now bounds ≡ None) }
    {
        let source = Source { name, text: None };
        Self::of(alloc, env, devices, source, bounds)
    }

    /// The runs of a text that is given, or else of the text of a variable. Takes no memory. Errors: `NoSuchVariable`.
    pub fn of(
        alloc: Global,
        env: &'a Env,
        devices: &'a Devices,
        source: Source<'a>,
        bounds: Bounds,
    ) -> Result<Self, RehearseError>
        ensures ok { IfOk result (λ r. r
            ≡ new_runs (task_from env.now devices.now (source_shown source.entry) bounds)) }
        ensures found { OnOk result (task_found env.now devices.now (source_shown source.entry) bounds
            ≡ Some (task_from env.now devices.now (source_shown source.entry) bounds)) }
        ensures err { IfErr result
            (λ e. (e ≡ NoSuchVariable) × (text_in env.now (source_shown source.entry) ≡ None)) }
        ensures missing { OnErr result
            (task_found env.now devices.now (source_shown source.entry) bounds ≡ None) }
    {
        let Some(rehearsal) = rehearsal_of(alloc, env, devices, source, bounds) else {
            return Err(RehearseError::NoSuchVariable);
        };
        Ok(Runs {
            rehearsal,
            start: None,
            store: S::new(alloc),
            word: Bytes::new(),
            next: Bytes::new(),
            asks: Vec::new(alloc),
            has_given: false,
            phase: Phase::Fresh,
        })
    }

    /// The same runs, with what they write dropped. Takes no memory. Errors: `NoSuchVariable`.
    pub fn unheard(
        alloc: Global,
        env: &'a Env,
        devices: &'a Devices,
        source: Source<'a>,
        bounds: Bounds,
    ) -> Result<Self, RehearseError>
        ensures ok { IfOk result (λ r. r
            ≡ new_runs (unheard (task_from env.now devices.now (source_shown source.entry) bounds))) }
        ensures found { OnOk result (task_found env.now devices.now (source_shown source.entry) bounds
            ≡ Some (task_from env.now devices.now (source_shown source.entry) bounds)) }
        ensures err { IfErr result
            (λ e. (e ≡ NoSuchVariable) × (text_in env.now (source_shown source.entry) ≡ None)) }
        ensures missing { OnErr result
            (task_found env.now devices.now (source_shown source.entry) bounds ≡ None) }
    {
        let Some(rehearsal) = rehearsal_of(alloc, env, devices, source, bounds) else {
            return Err(RehearseError::NoSuchVariable);
        };
        let quiet = rehearsal.unheard();
        Ok(Runs {
            rehearsal: quiet,
            start: None,
            store: S::new(alloc),
            word: Bytes::new(),
            next: Bytes::new(),
            asks: Vec::new(alloc),
            has_given: false,
            phase: Phase::Fresh,
        })
    }

    /// The runs that follow the run of a word, whose digits are handed over. It is run first. Errors: `NoSuchVariable`;
    /// `NotARun` if the word is no run, or if more of its answers are unexpected than the bounds allow; `Memory`.
    pub fn after(
        alloc: Global,
        env: &'a Env,
        devices: &'a Devices,
        name: &'a [u8],
        bounds: Bounds,
        word: &[u8],
    ) -> Result<Self, RehearseError>
        ensures ok { IfOk result (λ r. GoesOnBehind (task_shown env.now devices.now name.now bounds)
            word.now r) }
        ensures set { OnOk result (task_set env.now devices.now name.now bounds
            ≡ Some (task_shown env.now devices.now name.now bounds)) }
        ensures err { IfErr result
            (λ e. RefusesWord (task_shown env.now devices.now name.now bounds)
            (value_of env.now name.now) word.now e) }
        ensures unset { IfErr result
            (λ e. e ≡ NoSuchVariable → task_set env.now devices.now name.now bounds ≡ None) }
    {
        let source = Source { name, text: None };
        Self::behind(alloc, env, devices, source, bounds, word)
    }

    /// The same of a text that is given, or else of the text of a variable.
    pub fn behind(
        alloc: Global,
        env: &'a Env,
        devices: &'a Devices,
        source: Source<'a>,
        bounds: Bounds,
        word: &[u8],
    ) -> Result<Self, RehearseError>
        ensures ok { IfOk result
            (λ r. GoesOnBehind (task_from env.now devices.now (source_shown source.entry) bounds)
            word.now r) }
        ensures found { OnOk result (task_found env.now devices.now (source_shown source.entry) bounds
            ≡ Some (task_from env.now devices.now (source_shown source.entry) bounds)) }
        ensures err { IfErr result
            (λ e. RefusesWord (task_from env.now devices.now (source_shown source.entry) bounds)
            (text_in env.now (source_shown source.entry)) word.now e) }
        ensures missing { IfErr result (λ e. e ≡ NoSuchVariable
            → task_found env.now devices.now (source_shown source.entry) bounds ≡ None) }
    {
        let Some(rehearsal) = rehearsal_of(alloc, env, devices, source, bounds) else {
            return Err(RehearseError::NoSuchVariable);
        };
        let mut store = S::new(alloc);
        let mut digits = Digits::new();
        let mut asks = Vec::new(alloc);
        let Ok(walked) = walk_to(&rehearsal, &mut store, &mut digits, &mut asks, word) else {
            return Err(RehearseError::Memory);
        };
        let Walked::Ends(halt) = walked else {
            return Err(RehearseError::NotARun);
        };
        let count = unexpected(devices, store.log());
        if !is_at_most(bounds.failures(), count) {
            return Err(RehearseError::NotARun);
        }
        Ok(Runs {
            rehearsal,
            start: Some(copy_of(&digits)),
            store,
            word: digits,
            next: Bytes::new(),
            asks,
            has_given: true,
            phase: Phase::At(halt),
        })
    }

    /// Moves to the next run. Returns false if there is none. Errors: `Memory`, and `Failed` if
    /// memory ran out before.
    fn advance(&mut self) -> Result<bool, RehearseError>
        ensures { Advances self.old result self.new }
    {
        match self.phase {
            Phase::Fresh => {
                let Ok(halt) = first_run(
                    &self.rehearsal,
                    &mut self.store,
                    &mut self.next,
                    &mut self.asks,
                ) else {
                    self.phase = Phase::Failed;
                    return Err(RehearseError::Memory);
                };
                set_to(&mut self.word, &self.next);
                self.has_given = true;
                self.phase = Phase::At(halt);
                Ok(true)
            }
            Phase::At(_) => {
                set_to(&mut self.next, &self.word);
                let Ok(found) = next_run(
                    &self.rehearsal,
                    &mut self.store,
                    &mut self.next,
                    &mut self.asks,
                ) else {
                    self.phase = Phase::Failed;
                    return Err(RehearseError::Memory);
                };
                let Some(halt) = found else {
                    self.phase = Phase::Over;
                    return Ok(false);
                };
                set_to(&mut self.word, &self.next);
                self.phase = Phase::At(halt);
                Ok(true)
            }
            Phase::Over => Ok(false),
            Phase::Failed => Err(RehearseError::Failed),
        }
    }

    /// The run that the store holds, if there is one.
    fn get(&self) -> Option<RunView<'_, S>>
        ensures { IsView S.Store self.now result }
    {
        match &self.phase {
            Phase::At(halt) => Some(RunView::new(self.word.as_slice(), halt.ending(), &self.store)),
            Phase::Fresh | Phase::Over | Phase::Failed => None,
        }
    }

    /// Gives the next run, or `None` at the end and in every later call. Errors: `Memory`; each
    /// later call then returns `Failed`.
    pub fn next(&mut self) -> Result<Option<RunView<'_, S>>, RehearseError>
        ensures* { sem 𝓛 (Lent S.row S.Store self.entry result) }
    {
        self.advance()?;
        Ok(self.get())
    }

    /// The device commands.
    pub fn devices(&self) -> &'a Devices
        ensures { result.now ≡ (self.now.task).limits.devices }
    {
        self.rehearsal.devices
    }

    /// Whether memory ran out, which ends the rehearsal.
    pub(crate) fn has_failed(&self) -> bool
        ensures { result ≡ self.now.failed }
    {
        matches!(self.phase, Phase::Failed)
    }

    /// Whether words are still to come, if memory did not run out.
    pub(crate) fn has_more(&self) -> bool
        requires { self.now.failed ≡ false }
        ensures { result ≡ has_words self.now.to_come }
    {
        match self.phase {
            Phase::Fresh => true,
            Phase::At(_) => self.store.has_mark(),
            Phase::Over => false,
            Phase::Failed => unreachable!(),
        }
    }

    /// The digits of the last word that was given, or that `after` was given. The words to come are
    /// those after it, or all words if there is none.
    pub fn given(&self) -> Option<&[u8]>
        ensures digits { option_bytes result ≡ option_map (map outcome_digit) self.now.given }
        ensures behind { self.now.to_come ≡ words_made self.now.task self.now.given }
    {
        if self.has_given {
            Some(self.word.as_slice())
        } else {
            None
        }
    }

    /// The digits of that word, or no digits if there is none.
    pub(crate) fn last_digits(&self) -> &[u8]
        ensures { result.now ≡ map outcome_digit (last_given self.now) }
    {
        if self.has_given {
            self.word.as_slice()
        } else {
            &[]
        }
    }

    /// How many steps were begun in all: the steps of the start word, if there is one; then, for
    /// each run that was given, the steps after the last command that it shares with the run before
    /// it.
    pub fn work(&self) -> u64
        ensures work { result ≡ self.now.work }
        ensures whole { self.now.failed ≡ false → result
            ≡ work_of self.now.task self.now.start self.now.answers }
    {
        self.store.begun()
    }
}
