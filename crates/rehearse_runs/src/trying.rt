//! Whether a word is a run.
ghost use Rattle.std.specs.Prelude.{◌≡◌, IfOk, OnOk, IfErr, IsSome, Some, None};
ghost use Rattle.envtools.specs.Environment.{value_of};
ghost use Rattle.rehearse_machine.specs.Tasks.{task_shown, task_set};
ghost use Rattle.rehearse_rules.specs.declared.rehearse_error.RehearseError.TheVariants.{NoSuchVariable};
ghost use Rattle.rehearse_runs.specs.Behind.{kind_shown, HasKind, RefusesTry};

use crate::runs::rehearsal_of;
use crate::searching::Digits;
use crate::walking::{Walked, walk_to};
use bootstore_state::Store;
use device_list::Devices;
use envtools::Env;
use rehearse_machine::Source;
use rehearse_rules::RehearseError;
use rehearse_terms::Bounds;
use std::alloc::Global;

/// What kind of word a text is.
#[derive(Clone, Copy, Debug, PartialEq, Eq)]
pub enum WordKind {
    /// A run takes all of its digits.
    Run,
    /// A device command finds no digit left.
    Short,
    /// Digits are left over, or a byte is not a digit.
    Long,
}

/// Tells what kind of word a text is for the text of a variable.
pub fn try_word<S: Store>(
    alloc: Global,
    env: &Env,
    devices: &Devices,
    name: &[u8],
    bounds: Bounds,
    word: &[u8],
) -> Result<WordKind, RehearseError>
    ensures ok { IfOk result (λ k. HasKind (task_shown env.now devices.now name.now bounds) word.now
        (kind_shown k)) }
    ensures found { OnOk result (IsSome (value_of env.now name.now)) }
    ensures set { OnOk result (task_set env.now devices.now name.now bounds
        ≡ Some (task_shown env.now devices.now name.now bounds)) }
    ensures err { IfErr result (λ e. RefusesTry (value_of env.now name.now) e) }
    ensures unset { IfErr result
        (λ e. e ≡ NoSuchVariable → task_set env.now devices.now name.now bounds ≡ None) }
{
    let source = Source { name, text: None };
    let Some(rehearsal) = rehearsal_of(alloc, env, devices, source, bounds) else {
        return Err(RehearseError::NoSuchVariable);
    };
    let mut store = S::new(alloc);
    let mut digits = Digits::new();
    let mut asks = Vec::new(alloc);
    let Ok(walked) = walk_to(&rehearsal, &mut store, &mut digits, &mut asks, word) else {
        return Err(RehearseError::Memory);
    };
    match walked {
        Walked::Ends(_) => Ok(WordKind::Run),
        Walked::Short => Ok(WordKind::Short),
        Walked::Long => Ok(WordKind::Long),
    }
}
