//! Of the runs that end alike, those of which no other needs less.
ghost use Rattle.std.specs.Prelude.{◌≡◌, false, IfOk, IfErr, map, reverse};
ghost use Rattle.rehearse_causes.specs.Causes.{cause_on, least};
ghost use Rattle.rehearse_causes.specs.Keeping.{foremost};
ghost use Rattle.rehearse_rules.specs.declared.rehearse_error.RehearseError.TheVariants.{Memory};

use crate::cause::Cause;
use crate::kept::{Kept, foremost};
use bootstore_state::{Store, StoreError};
use rehearse_rules::RehearseError;
use rehearse_runs::Runs;
use std::alloc::Global;

/// Of causes of which none is covered by one before it, those that none after them covers. Errors:
/// `Memory`.
fn least(alloc: Global, causes: Vec<Cause>) -> Result<Vec<Cause>, StoreError>
    ensures { IfOk result (λ made. made.items ≡ reverse (foremost (reverse causes.items))) }
{
    let mut back = causes;
    back.reverse();
    let mut made = foremost(alloc, back)?;
    made.reverse();
    Ok(made)
}

/// Of the causes of the runs still to come, those that none before them covers. Errors: `Memory`.
fn gathered<S: Store>(alloc: Global, runs: &mut Runs<'_, S>) -> Result<Vec<Cause>, RehearseError>
    requires { runs.old.failed ≡ false }
    ensures ok { IfOk result (λ made. made.items
        ≡ foremost (map (cause_on runs.old.task) runs.old.to_come)) }
    ensures err { IfErr result (λ e. e ≡ Memory) }
{
    let devices = runs.devices();
    let mut kept = Kept::new(alloc);
    while let Some(view) = runs.next()? {
        let Ok(cause) = Cause::of(alloc, devices, &view) else {
            return Err(RehearseError::Memory);
        };
        let Ok(()) = kept.keep(alloc, cause) else {
            return Err(RehearseError::Memory);
        };
    }
    Ok(kept.causes)
}

/// The causes among the runs still to come. Errors: `Memory`.
pub(crate) fn least_of<S: Store>(
    alloc: Global,
    runs: &mut Runs<'_, S>,
) -> Result<Vec<Cause>, RehearseError>
    requires { runs.old.failed ≡ false }
    ensures ok { IfOk result (λ made. made.items
        ≡ least (map (cause_on runs.old.task) runs.old.to_come)) }
    ensures err { IfErr result (λ e. e ≡ Memory) }
{
    let causes = gathered(alloc, runs)?;
    match least(alloc, causes) {
        Ok(made) => Ok(made),
        Err(_) => Err(RehearseError::Memory),
    }
}
