//! A caller of `rehearse`.
ghost use Rattle.std.specs.Prelude.{◌≡◌, [], IfOk, true};
ghost use Rattle.rehearse.specs.Outcomes.{Run};
ghost use Rattle.rehearse.specs.Runs.{kind};
ghost use Rattle.rehearse.specs.Tasks.{task_shown};

use rehearse::{Bounds, Devices, Env, RehearseError, Trail, WordKind, try_word};
use std::alloc::Global;

/// Whether the script of a variable ends and no device command is asked: the empty word is then its only run.
pub fn asks_nothing(
    alloc: Global,
    env: &Env,
    devices: &Devices,
    name: &[u8],
    bounds: Bounds,
) -> Result<bool, RehearseError>
    ensures { IfOk result (λ asks. asks ≡ true
        → kind (task_shown env.now devices.now name.now bounds) [] ≡ Run) }
{
    let found = try_word::<Trail>(alloc, env, devices, name, bounds, b"")?;
    Ok(found == WordKind::Run)
}
