//! How the runs of an environment's variable, or of a given text, end, from its device list to the lines.
ghost use Rattle.std.specs.Prelude.{ℕ, ◌≡◌, ◌+◌, ◌≤◌, IfOk, IfErr, Some, map};
ghost use Rattle.rehearse_machine.specs.Tasks.{task_found, task_in};
ghost use Rattle.rehearse_rules.specs.Runs.{unheard};
ghost use Rattle.rehearse_states.specs.Drawing.{asks_in, nodes_shown};
ghost use Rattle.rehearse_states.specs.Endings.{endings};
ghost use Rattle.rehearse_states.specs.Flow.{IsFlow};
ghost use Rattle.rehearse_states.specs.RowsShown.{rows_shown, saturated};
ghost use Rattle.rehearse_endings.specs.declared.sum_error.SumError.TheVariants.{Bytes, States, Steps};
ghost use Rattle.rehearse_endings.specs.Held.{ComesToBytes, HoldsStates};
ghost use Rattle.rehearse_endings.specs.States.{ComesToStates, ComesToSteps};
ghost use Rattle.rehearse_endings.specs.TellingEndings.{AreLines, IsUntold, names_of, source_of, TellsEndings, RefusesEndings};

use crate::searching::{Endings, sum_endings};
use crate::sum_error::SumError;
use bootstore_state::Store;
use device_list::Devices;
use envtools::Env;
use output::{Out, write_all};
use rehearse_machine::{Rehearsal, Source};
use rehearse_rules::RehearseError;
use rehearse_states::{flow_text_of, text_of};
use rehearse_terms::RunBounds;
use std::alloc::Global;

/// What is asked of the endings of a script.
#[derive(Clone, Copy)]
pub struct EndingsAsk<'a> {
    /// The variable whose text is rehearsed, or what the given text is called.
    pub name: &'a [u8],
    /// A text that is rehearsed in place of a variable's.
    pub text: Option<&'a [u8]>,
    /// The bounds of its runs.
    pub bounds: RunBounds,
    /// How many states may be searched.
    pub states: u32,
    /// How many steps may be begun, in all stretches of the search together.
    pub work: u32,
    /// How many bytes the states may count that are kept, together.
    pub memory: u64,
    /// The variables by whose values runs are told apart, in this order.
    pub names: &'a [&'a [u8]],
    /// Whether the flow is written, not the endings.
    pub flow: bool,
}

/// How all runs of a rehearsal end. What the runs write is dropped. Errors: those of `sum_endings`.
pub fn endings_of<S: Store>(
    rehearsal: &Rehearsal<'_>,
    names: &[&[u8]],
    most_states: u32,
    most_work: u32,
    most_bytes: u64,
) -> Result<Endings, SumError>
    ensures rows { IfOk result (λ e. rows_shown e.rows ≡ map saturated
        (endings (map (λ n. n.now) names.now) (task_in rehearsal.now))) }
    ensures flow { IfOk result (λ e. IsFlow (task_in rehearsal.now) (nodes_shown e.nodes)) }
    ensures nodes { IfOk result (λ e. asks_in (nodes_shown e.nodes) ≡ e.states) }
    ensures states { IfOk result (λ e. e.states ≤ most_states) }
    ensures held { IfOk result (λ e. HoldsStates (map (λ n. n.now) names.now) (unheard (task_in rehearsal.now)) e.states most_bytes) }
    ensures err { IfErr result
        (λ e. e ≡ States → ComesToStates (map (λ n. n.now) names.now) (unheard (task_in rehearsal.now)) (most_states + 1)) }
    ensures costly { (count : ℕ) → IfErr result
        (λ e. e ≡ Steps count → ComesToSteps (map (λ n. n.now) names.now) (unheard (task_in rehearsal.now)) count most_work) }
    ensures large { (count : ℕ) → IfErr result
        (λ e. e ≡ Bytes count → ComesToBytes (map (λ n. n.now) names.now) (unheard (task_in rehearsal.now)) count most_bytes) }
{
    let quiet = rehearsal.unheard();
    let _bound = quiet.bounds.devices();
    let mut store = S::new(rehearsal.alloc);
    sum_endings(
        &quiet,
        &mut store,
        names,
        most_states,
        most_work,
        most_bytes,
    )
}

/// The lines that say how all runs of a rehearsal end, or the lines of their flow. What the runs write is dropped.
fn lines_of<S: Store>(
    rehearsal: &Rehearsal<'_>,
    names: &[&[u8]],
    most_states: u32,
    most_work: u32,
    most_bytes: u64,
    flow: bool,
) -> Result<Vec<u8>, SumError>
    ensures ok { IfOk result (λ text. AreLines (map (λ n. n.now) names.now) flow most_states most_bytes
        (Some (task_in rehearsal.now)) text.items) }
    ensures err { IfErr result
        (λ e. e ≡ States → ComesToStates (map (λ n. n.now) names.now) (unheard (task_in rehearsal.now)) (most_states + 1)) }
    ensures costly { (count : ℕ) → IfErr result
        (λ e. e ≡ Steps count → ComesToSteps (map (λ n. n.now) names.now) (unheard (task_in rehearsal.now)) count most_work) }
    ensures large { (count : ℕ) → IfErr result
        (λ e. e ≡ Bytes count → ComesToBytes (map (λ n. n.now) names.now) (unheard (task_in rehearsal.now)) count most_bytes) }
{
    let found = endings_of::<S>(rehearsal, names, most_states, most_work, most_bytes)?;
    if flow {
        let text = flow_text_of(rehearsal.alloc, &found.nodes)?;
        return Ok(text);
    }
    let text = text_of(
        rehearsal.alloc,
        names,
        rehearsal.devices,
        &found.rows,
        &found.nodes,
        found.states,
    )?;
    Ok(text)
}

/// The lines of all runs of the given text, or else of a variable, if it is set. Errors:
/// `NoSuchVariable`, `States`, `Steps`, `Bytes`, `Memory`.
fn lines_in<S: Store>(
    alloc: Global,
    env: &Env,
    devices: &Devices,
    ask: &EndingsAsk<'_>,
) -> Result<Vec<u8>, RehearseError>
    ensures ok { IfOk result (λ text. AreLines (names_of ask.now) ask.now.flow ask.now.states ask.now.memory
        (task_found env.now devices.now (source_of ask.now) ask.now.bounds) text.items) }
    ensures err { IfErr result (λ e. IsUntold (names_of ask.now) ask.now.states ask.now.work ask.now.memory
        (task_found env.now devices.now (source_of ask.now) ask.now.bounds) e) }
{
    let source = Source {
        name: ask.name,
        text: ask.text,
    };
    let Some(rehearsal) = Rehearsal::of(alloc, env, devices, source, ask.bounds) else {
        return Err(RehearseError::NoSuchVariable);
    };
    match lines_of::<S>(
        &rehearsal, ask.names, ask.states, ask.work, ask.memory, ask.flow,
    ) {
        Ok(text) => Ok(text),
        Err(SumError::States) => Err(RehearseError::States),
        Err(SumError::Steps(entered)) => Err(RehearseError::Steps(entered)),
        Err(SumError::Bytes(entered)) => Err(RehearseError::Bytes(entered)),
        Err(SumError::Memory) => Err(RehearseError::Memory),
    }
}

/// Writes how all runs of a variable or of a given text end: for each ending a line, the values that are left of the
/// named variables, and the unexpected answers of the run with the fewest; then a
/// line for all runs. Or it writes their flow: a line for each state in which a device command
/// asks, and for each way to end. Refusals in order: the variable; `States`, `Steps`, `Bytes` and `Memory`, with
/// nothing written; then `Write`, with a prefix of the lines written. `Steps` and `Bytes` have the number of states that
/// were entered by then, no two of them alike.
pub fn endings_env<S: Store, O: Out>(
    alloc: Global,
    env: &Env,
    devices: &Devices,
    ask: &EndingsAsk<'_>,
    out: &mut O,
) -> Result<(), RehearseError>
    ensures ok { IfOk result (λ _. TellsEndings
        (task_found env.now devices.now (source_of ask.now) ask.now.bounds) ask.now
        (O.sink out.old) (O.sink out.new)) }
    ensures err { IfErr result (λ e. RefusesEndings
        (task_found env.now devices.now (source_of ask.now) ask.now.bounds) ask.now
        (O.sink out.old) (O.sink out.new) e) }
{
    let text = lines_in::<S>(alloc, env, devices, ask)?;
    match write_all(out, &text) {
        Ok(()) => Ok(()),
        Err(_) => Err(RehearseError::Write),
    }
}
