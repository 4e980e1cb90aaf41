//! The endings of all runs of a case, over both stores.

use bootstore_copies::Plain;
use bootstore_state::Store;
use bootstore_trail::Trail;
use envtools::Env;
use output::Over;
use rehearse_endings::{EndingsAsk, endings_env};
use rehearse_runs::RehearseError;
use rehearse_terms::RunBounds;
use tests_language::{Case, agreed, devices_of, env_of};
use tests_rows::{first_word, number, slices, text_of};

/// What a call answers, and its lines.
type Told = (Result<(), RehearseError>, Vec<u8>);

/// What is asked of the runs of a case in this environment.
fn asked<S: Store>(case: &Case, env: &Env, ask: &EndingsAsk<'_>) -> anyhow::Result<Told> {
    let devices = devices_of(case.alloc, &case.devices)?;
    let mut out = Over::new(Vec::new(case.alloc));
    let answer = endings_env::<S, _>(case.alloc, env, &devices, ask, &mut out);
    drop(devices);
    Ok((answer, out.into_writer()))
}

/// The endings of all runs of a case, or their flow, within so many device commands a run and so many states.
fn call<S: Store>(case: &Case, devices: u32, states: u32, flow: bool) -> anyhow::Result<Told> {
    let Some(bounds) = RunBounds::new(devices, 1_000) else {
        anyhow::bail!("no bounds");
    };
    let names = slices(case.alloc, &case.names)?;
    let ask = EndingsAsk {
        name: &case.name,
        text: case.text.as_ref().map(|text| text.as_slice()),
        bounds: bounds.in_shell(case.bounds.shell()),
        states,
        work: u32::MAX,
        memory: u64::MAX,
        names: &names,
        flow,
    };
    let env = env_of(case)?;
    let told = asked::<S>(case, &env, &ask);
    drop(env);
    told
}

/// The endings of all runs, or the flow, and what the call answers, over one store.
fn over<S: Store>(case: &Case, word: &str, says: &str) -> anyhow::Result<String> {
    let (devices, states) = first_word(says);
    let (answer, lines) = call::<S>(case, number(devices)?, number(states)?, word == "flow")?;
    let lines = text_of(case.alloc, &lines)?;
    Ok(format!(in case.alloc; "{lines}answer {answer:?}")?)
}

/// The same over both stores.
pub(crate) fn told(case: &Case, word: &str, says: &str) -> anyhow::Result<String> {
    let plain = over::<Plain>(case, word, says);
    let trail = over::<Trail>(case, word, says);
    agreed(case.alloc, plain, trail)
}
