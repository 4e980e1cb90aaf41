//! Laws of a machine that reports. A call of one does nothing: its contract is the law.

ghost use Rattle.rehearse_reports.specs.Laws.{KeysOfBothOutcomes, PlacesAreSame};

/// At a device command that asks, keys that are enough for its success and keys that are enough for its
/// failure are enough together.
pub fn keys_of_both_outcomes()
    ensures { KeysOfBothOutcomes }
{}

/// At two moments with the same frames, which agree on what the words read of the command that asks at the
/// first one, the same command asks.
pub fn places_are_same()
    ensures { PlacesAreSame }
{}
