//! Laws of what a store holds. A call of one does nothing: its contract is the law.
ghost use Rattle.bootstore_state.specs.StoredState.{StoredValues, StoredChanges};
ghost use Rattle.bootstore_state.specs.StoredState.{StoredDeletions, StoredStarts};

/// The variables of a run are the entries of a store's map, and its changes are the map's.
pub fn states_are_stored()
    ensures values { StoredValues }
    ensures changes { StoredChanges }
    ensures deletions { StoredDeletions }
    ensures starts { StoredStarts }
{}
