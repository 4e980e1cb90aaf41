//! What is kept of a state at which a device command asks.
ghost use Rattle.std.specs.Prelude.{◌≡◌, ◌+◌, ◌||◌, max, suc, IfOk, OnOk};
ghost use Rattle.rehearse_states.specs.RowsShown.{run_end_shown, of_both_up};
ghost use Rattle.rehearse_rules.specs.EndingsShown.{halt_shown};
ghost use Rattle.rehearse_states.specs.Summaries.{Summary as ShownSummary, is_cut_devices, is_cut_steps, summary_at_end, summary_of_sides};
ghost use Rattle.rehearse_states.specs.SumNodes.{HasMoreSums, IsSummary, sums_shown};

use crate::run_end::RunEnd;
use crate::sum_nodes::SumNode;
use bootstore_state::StoreError;
use rehearse_rules::Halt;
use std::alloc::Global;
use std::rc::Rc;

/// What the rows of what is to come are made of; the most steps and device commands that its runs reach; whether a run is
/// cut.
#[derive(Clone, Copy)]
pub struct Summary {
    /// The place of the node that draws the rows.
    pub sum: usize,
    pub steps: u64,
    pub devices: u64,
    pub cut_steps: bool,
    pub cut_devices: bool,
    /// The place of the state in the flow.
    pub place: usize,
}

/// Whether the bound on steps cuts a run off.
fn is_cut_steps(halt: &Halt) -> bool
    ensures { result ≡ is_cut_steps (halt_shown halt.now) }
{
    matches!(halt, Halt::CutSteps)
}

/// Whether the bound on device commands does.
fn is_cut_devices(halt: &Halt) -> bool
    ensures { result ≡ is_cut_devices (halt_shown halt.now) }
{
    matches!(halt, Halt::CutDevices)
}

/// Whether one of both is so.
fn either(one: bool, other: bool) -> bool
    ensures { result ≡ (one || other) }
{
    one || other
}

/// The summary of a run that is over. Makes a node for its row.
pub fn of_end(
    alloc: Global,
    sums: &mut Vec<SumNode>,
    steps: u32,
    devices: u32,
    run_end: RunEnd,
    place: usize,
) -> Result<Summary, StoreError>
    ensures sums { IfOk result (λ s. IsSummary (sums_shown sums.new) s
        (summary_at_end (run_end_shown run_end) steps devices)) }
    ensures grows { OnOk result (HasMoreSums (sums_shown sums.old) (sums_shown sums.new)) }
    ensures place { IfOk result (λ s. s.place ≡ place) }
{
    let cut_steps = is_cut_steps(&run_end.halt);
    let cut_devices = is_cut_devices(&run_end.halt);
    let sum = sums.len();
    let shared = Rc::new(alloc, run_end)?;
    sums.push(SumNode::Over(shared))?;
    Ok(Summary {
        sum,
        steps: u64::from(steps),
        devices: u64::from(devices),
        cut_steps,
        cut_devices,
        place,
    })
}

/// The summary of a device command that asks, from its two sides. This answer is expected there, if one is. Makes a
/// node for the rows.
pub fn of_sides(
    sums: &mut Vec<SumNode>,
    steps: u32,
    devices: u32,
    expected: Option<bool>,
    won: Summary,
    lost: Summary,
    place: usize,
) -> Result<Summary, StoreError>
    ensures sums { IfOk result (λ s. (won_shown lost_shown : ShownSummary)
        → IsSummary (sums_shown sums.old) won won_shown → IsSummary (sums_shown sums.old) lost lost_shown
        → IsSummary (sums_shown sums.new) s
        (summary_of_sides (of_both_up expected) steps devices won_shown lost_shown)) }
    ensures grows { OnOk result (HasMoreSums (sums_shown sums.old) (sums_shown sums.new)) }
    ensures place { IfOk result (λ s. s.place ≡ place) }
{
    let sum = sums.len();
    sums.push(SumNode::Both {
        expected,
        won: won.sum,
        lost: lost.sum,
    })?;
    let cut_steps = either(won.cut_steps, lost.cut_steps);
    let cut_devices = either(won.cut_devices, lost.cut_devices);
    Ok(Summary {
        sum,
        steps: u64::from(steps).max(won.steps.max(lost.steps)),
        devices: (u64::from(devices) + 1).max(won.devices.max(lost.devices)),
        cut_steps,
        cut_devices,
        place,
    })
}
