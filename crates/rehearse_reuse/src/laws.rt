//! Laws of summaries that are used again. A call of one does nothing: its contract is the law.

ghost use Rattle.rehearse_reuse.specs.Reuse.{KeysAreReused, NoReturnsAreReused, NodesAreReused, NodesHoldBelow, SummariesAreReused, SummariesHoldAbove, SummariesHoldBelow};

/// The summary of what is to come at a moment holds, moved on, at every other moment at its place that has
/// the same at keys that are enough, if there is room for its runs. So does a node that draws these runs,
/// and the keys are enough there too.
pub fn summaries_are_reused()
    ensures summaries { SummariesAreReused }
    ensures nodes { NodesAreReused }
    ensures keys { KeysAreReused }
    ensures returns { NoReturnsAreReused }
{}

/// A summary of what is to come, and a node that draws it, hold with frames below as well as without them, if
/// nothing comes back to these.
pub fn summaries_hold_below()
    ensures below { SummariesHoldBelow }
    ensures above { SummariesHoldAbove }
    ensures nodes { NodesHoldBelow }
{}
