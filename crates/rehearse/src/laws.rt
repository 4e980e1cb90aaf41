//! Laws of what is saved. A call of one does nothing: its contract is the law.

ghost use Rattle.rehearse.specs.SavedCopies.{OtherListsStay, SavesWhatIsThere};

/// After a success of a call that saves, over a list in which such calls set copies of the variables that are asked for, each
/// copy has the value that the variable then has, or that it is not set.
pub fn saved_copies()
    ensures { SavesWhatIsThere }
{}

/// A list that says of no call that it saves is as it was, and nothing but the variables themselves is asked for.
pub fn other_lists()
    ensures { OtherListsStay }
{}
