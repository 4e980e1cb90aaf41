//! The word of a run: whether each of its device commands succeeded, the first one first.
ghost use Rattle.std.specs.Prelude.{◌≡◌, ◌∷◌, ◌++◌, [], map, IfNone, IfOk, IfSome, OnOk};
ghost use Rattle.rehearse_rules.specs.Execution.{outcome_when};
ghost use Rattle.rehearse_states.specs.Repeats.{repeated};

use bootstore_state::StoreError;
use std::alloc::{AllocError, Global};
use std::clone::Clone;
use std::marker::Model;
use std::rc::Rc;

/// The outcomes of the device commands of a run, in their order. Words share the outcomes after, so
/// a clone takes no memory. An outcome that comes many times in a row is kept once. A word is no longer than the bound on
/// device commands.
#[cycle(run_word)]
pub struct RunWord {
    /// The first outcome and what is after it; none of the empty word.
    first: Option<Rc<Step>>,
}

/// An outcome, how many more times it comes, and the word after it.
#[cycle(run_word)]
#[derive(Drop)]
struct Step {
    success: bool,
    again: u32,
    rest: RunWord,
}

impl Model for RunWord {
    ghost use Rattle.std.specs.Prelude.{length};
    ghost use Rattle.rehearse_terms.specs.Outcomes.{OutcomeWord};

    ghost Value = { OutcomeWord };

    ghost use Rattle.rehearse_states.specs.RunWords.{outcomes};

    ghost view = { λ w. outcomes w.first };

    ghost size = { length };

    ghost use Rattle.std.proofs.Common.{arith};
    ghost use Rattle.rehearse_states.specs.Repeats.{length-repeated};

    ghost size_decreases = { λ a h. Prim.grind (arith, length-repeated) };
}

/// A loop, since a word may be long. It ends at the first outcome that another word shares.
impl Drop for RunWord {
    fn drop(mut self) {
        loop {
            let RunWord { first } = self;
            let Some(shared) = first else {
                return;
            };
            let Some(step) = Rc::into_inner(shared) else {
                return;
            };
            let Step {
                success: _,
                again: _,
                rest,
            } = step;
            self = rest;
        }
    }
}

impl Clone for RunWord {
    ghost is_clone = { λ word copy. copy ≡ word };

    fn clone(&self) -> Result<Self, AllocError> {
        let first = match &self.first {
            None => None,
            Some(step) => Some(step.clone()?),
        };
        Ok(RunWord { first })
    }
}

impl RunWord {
    /// The word of a run that asks no device. Takes no memory.
    pub(crate) fn new() -> Self
        ensures { result ≡ [] }
    {
        RunWord { first: None }
    }

    /// The word with one more outcome, the first. `Memory` if it takes more than there is.
    pub(crate) fn with_first(self, alloc: Global, success: bool) -> Result<Self, StoreError>
        ensures { IfOk result (λ word. word ≡ outcome_when success ∷ self) }
    {
        if let Some((first, times, rest)) = self.split_first() {
            if first == success {
                if let Some(again) = times.checked_add(1) {
                    let behind = rest.clone()?;
                    let word = of_step(alloc, success, again, behind)?;
                    return Ok(word);
                }
            }
        }
        let word = of_step(alloc, success, 0, self)?;
        Ok(word)
    }

    /// The first outcome, how many more times it comes, and the word after it; none of the empty word.
    fn split_first(&self) -> Option<(bool, u32, &RunWord)>
        ensures some { IfSome result (λ split. self.now ≡ repeated split.1 (outcome_when split.0) split.2.now) }
        ensures none { IfNone result (self.now ≡ []) }
    {
        match &self.first {
            None => None,
            Some(step) => Some((step.success, step.again, &step.rest)),
        }
    }

    /// The outcomes, whether each was a success. `Memory` if they take more than there is.
    pub(crate) fn outcomes(&self, alloc: Global) -> Result<Vec<bool>, StoreError>
        ensures { IfOk result (λ outcomes. map outcome_when outcomes.items ≡ self.now) }
    {
        let mut outcomes = Vec::new(alloc);
        let mut left = self;
        while let Some((success, again, rest)) = left.split_first() {
            add_again(&mut outcomes, success, again)?;
            left = rest;
        }
        Ok(outcomes)
    }
}

/// Adds an outcome, which comes this many more times.
fn add_again(outcomes: &mut Vec<bool>, success: bool, again: u32) -> Result<(), StoreError>
    ensures { OnOk result (map outcome_when outcomes.new.items
        ≡ map outcome_when outcomes.old.items ++ repeated again (outcome_when success) []) }
{
    outcomes.push(success)?;
    for _time in 0..again {
        outcomes.push(success)?;
    }
    Ok(())
}

/// The word that starts with an outcome, which comes this many more times.
fn of_step(alloc: Global, success: bool, again: u32, rest: RunWord) -> Result<RunWord, StoreError>
    ensures { IfOk result (λ word. word ≡ repeated again (outcome_when success) rest) }
{
    let first = Rc::new(
        alloc,
        Step {
            success,
            again,
            rest,
        },
    )?;
    Ok(RunWord { first: Some(first) })
}
