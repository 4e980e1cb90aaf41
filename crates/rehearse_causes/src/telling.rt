//! The causes of an environment's variable, or of a given text, from its device list to the lines.
ghost use Rattle.std.specs.Prelude.{◌≡◌, IfOk, IfErr};
ghost use Rattle.rehearse_causes.specs.CauseLines.{causes_text, reported};
ghost use Rattle.rehearse_causes.specs.TellingCauses.{IsUntold, RefusesCauses, TellsCauses, WithCauses, task_asked};

use crate::cause::Cause;
use crate::least::least_of;
use bootstore_state::{Store, StoreError};
use device_list::Devices;
use envtools::Env;
use output::{Out, write_all};
use rehearse_machine::Source;
use rehearse_rules::RehearseError;
use rehearse_runs::Runs;
use rehearse_terms::Bounds;
use std::alloc::Global;

/// What is asked of the causes of a script.
#[derive(Clone, Copy)]
pub struct CausesAsk<'a> {
    /// The variable whose text is rehearsed, or what the given text is called.
    pub name: &'a [u8],
    /// A text that is rehearsed in place of a variable's.
    pub text: Option<&'a [u8]>,
    /// The bounds of its runs, and how many device commands may fail in those that are looked at.
    pub bounds: Bounds,
    /// Whether only causes are reported that do not boot.
    pub check: bool,
}

/// Those that are reported. Errors: `Memory`.
fn reported(alloc: Global, check: bool, causes: Vec<Cause>) -> Result<Vec<Cause>, StoreError>
    ensures { IfOk result (λ told. told.items ≡ reported check causes.items) }
{
    if !check {
        return Ok(causes);
    }
    let mut told = Vec::new(alloc);
    for cause in causes {
        if !cause.is_booted() {
            told.push(cause)?;
        }
    }
    Ok(told)
}

/// The lines of causes. Errors: `Memory`.
fn text_of(alloc: Global, causes: &[Cause]) -> Result<Vec<u8>, StoreError>
    ensures { IfOk result (λ text. text.items ≡ causes_text causes.now) }
{
    let mut text = Vec::new(alloc);
    for cause in causes {
        cause.put(&mut text)?;
    }
    Ok(text)
}

/// The causes of the given text, or else of a variable, that are reported. Errors: `NoSuchVariable`, `Memory`.
fn causes_in<S: Store>(
    alloc: Global,
    env: &Env,
    devices: &Devices,
    ask: &CausesAsk<'_>,
) -> Result<Vec<Cause>, RehearseError>
    ensures ok { IfOk result (λ told. WithCauses (task_asked env.now devices.now ask.now)
        ask.now.check (λ causes. told.items ≡ causes)) }
    ensures err { IfErr result (λ e. IsUntold (task_asked env.now devices.now ask.now) e) }
{
    let source = Source {
        name: ask.name,
        text: ask.text,
    };
    let mut runs = Runs::<S>::unheard(alloc, env, devices, source, ask.bounds)?;
    let causes = least_of(alloc, &mut runs)?;
    match reported(alloc, ask.check, causes) {
        Ok(told) => Ok(told),
        Err(_) => Err(RehearseError::Memory),
    }
}

/// Writes what has to fail for each way in which the runs of a variable or of a given text end: for
/// each cause a line, and a line for each device command that fails. A cause is a run of which no other with the same
/// ending needs less. For a check, writes only those that do not boot, and returns false if there is
/// one; else returns true. Goes through all runs of the bounds, and compares each with the causes
/// that are kept.
///
/// Refusals in order: the variable, and `Memory`, with nothing written; then `Write`, with a prefix
/// of the lines written.
pub fn causes_env<S: Store, O: Out>(
    alloc: Global,
    env: &Env,
    devices: &Devices,
    ask: &CausesAsk<'_>,
    out: &mut O,
) -> Result<bool, RehearseError>
    ensures ok { IfOk result (λ fine. TellsCauses (task_asked env.now devices.now ask.now)
        ask.now.check (O.sink out.old) (O.sink out.new) fine) }
    ensures err { IfErr result (λ e. RefusesCauses (task_asked env.now devices.now ask.now)
        ask.now.check (O.sink out.old) (O.sink out.new) e) }
{
    let told = causes_in::<S>(alloc, env, devices, ask)?;
    let Ok(text) = text_of(alloc, &told) else {
        return Err(RehearseError::Memory);
    };
    write_all(out, &text)?;
    Ok(!ask.check || told.is_empty())
}
