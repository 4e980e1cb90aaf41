//! How runs end, and the values that they leave.
ghost use Rattle.std.specs.Prelude.{◌≡◌, map, IfOk};
ghost use Rattle.std.specs.FinMap.{entries, get};
ghost use Rattle.rehearse_rules.specs.EndingsShown.{halt_shown};
ghost use Rattle.rehearse_states.specs.RowsShown.{run_end_shown, value_shown};
ghost use Rattle.rehearse_states.specs.Endings.{ending_eq, end_eq, end_with, value_eq, values_eq, values_in};

use bootstore_state::{Store, StoreError};
use rehearse_rules::Halt;
use std::alloc::Global;

/// How a run ends, and the values that it leaves of the variables that are asked for.
#[derive(Drop)]
pub struct RunEnd {
    /// How the run ends.
    pub halt: Halt,
    /// The values, in the order asked, or `None` for a variable that is not set.
    pub values: Vec<Option<Vec<u8>>>,
}

/// Whether both end alike.
pub fn same_halt(a: &Halt, b: &Halt) -> bool
    ensures { result ≡ ending_eq (halt_shown a.now) (halt_shown b.now) }
{
    match (a, b) {
        (Halt::End(x), Halt::End(y)) => x == y,
        (Halt::CutDevices, Halt::CutDevices) => true,
        (Halt::CutSteps, Halt::CutSteps) => true,
        (Halt::Unknown(x), Halt::Unknown(y)) => x == y,
        (Halt::Syntax(x), Halt::Syntax(y)) => x == y,
        (Halt::Unsupported(x), Halt::Unsupported(y)) => x == y,
        (Halt::Panic(x), Halt::Panic(y)) => x == y,
        (Halt::Size, Halt::Size) => true,
        (Halt::Finished(one, x), Halt::Finished(other, y)) => one == other && x == y,
        _ => false,
    }
}

/// A copy of how a run ends. Errors: `Memory`.
pub(crate) fn copy_halt(halt: &Halt) -> Result<Halt, StoreError>
    ensures { IfOk result (λ copy. halt_shown copy ≡ halt_shown halt.now) }
{
    Ok(match halt {
        Halt::End(status) => Halt::End(*status),
        Halt::CutDevices => Halt::CutDevices,
        Halt::CutSteps => Halt::CutSteps,
        Halt::Unknown(name) => Halt::Unknown(name.clone()?),
        Halt::Syntax(name) => Halt::Syntax(name.clone()?),
        Halt::Unsupported(name) => Halt::Unsupported(name.clone()?),
        Halt::Panic(name) => Halt::Panic(name.clone()?),
        Halt::Size => Halt::Size,
        Halt::Finished(finish, name) => Halt::Finished(*finish, name.clone()?),
    })
}

/// Whether two values are the same.
fn same_value(a: &Option<Vec<u8>>, b: &Option<Vec<u8>>) -> bool
    ensures { result ≡ value_eq (value_shown a.now) (value_shown b.now) }
{
    match (a, b) {
        (None, None) => true,
        (Some(x), Some(y)) => x == y,
        _ => false,
    }
}

/// Whether the values are the same, one after another.
fn same_values(a: &[Option<Vec<u8>>], b: &[Option<Vec<u8>>]) -> bool
    ensures { result ≡ values_eq (map value_shown a.now) (map value_shown b.now) }
{
    if a.len() != b.len() {
        return false;
    }
    for (x, y) in a.iter().zip(b) {
        if !same_value(x, y) {
            return false;
        }
    }
    true
}

/// Whether both end alike, and leave the same values.
pub(crate) fn same_end(a: &RunEnd, b: &RunEnd) -> bool
    ensures { result ≡ end_eq (run_end_shown a.now) (run_end_shown b.now) }
{
    same_halt(&a.halt, &b.halt) && same_values(&a.values, &b.values)
}

/// The value of a variable in the present state of a store. Errors: `Memory`.
fn value_of<S: Store>(alloc: Global, store: &S, name: &[u8]) -> Result<Option<Vec<u8>>, StoreError>
    ensures { IfOk result (λ value. value_shown value
        ≡ get (S.record_of store.now).present.environment name.now) }
{
    match store.get_env(name) {
        Some(value) => {
            let copy = Vec::from_slice(alloc, value)?;
            Ok(Some(copy))
        }
        None => Ok(None),
    }
}

/// The values of variables in the present state of a store. Errors: `Memory`.
fn values_of<S: Store>(
    alloc: Global,
    store: &S,
    names: &[&[u8]],
) -> Result<Vec<Option<Vec<u8>>>, StoreError>
    ensures { IfOk result (λ values. map value_shown values.items
        ≡ values_in (entries (S.record_of store.now).present.environment)
        (map (λ n. n.now) names.now)) }
{
    let mut values = Vec::new(alloc);
    for name in names {
        let value = value_of(alloc, store, name)?;
        values.push(value)?;
    }
    Ok(values)
}

/// How the run ends that a store holds, with the values of variables. Errors: `Memory`.
pub fn run_end_of<S: Store>(
    alloc: Global,
    store: &S,
    halt: Halt,
    names: &[&[u8]],
) -> Result<RunEnd, StoreError>
    ensures { IfOk result (λ e. run_end_shown e
        ≡ end_with (map (λ n. n.now) names.now) (halt_shown halt)
        (entries (S.record_of store.now).present.environment)) }
{
    let values = values_of(alloc, store, names)?;
    Ok(RunEnd { halt, values })
}
