//! Laws of printing and of writing back, each the contract of a function that does nothing.

ghost use Rattle.envtools.specs.FromText.{TextsEnd};
ghost use Rattle.envtools.specs.Printing.{EntriesStandApart, EscapedIsPrintable};
ghost use Rattle.envtools.specs.Saving.{FrontMayStand, SpareMayBreak, SavedIsLoaded};

/// If the bytes in the spare copy's place are not a right copy, the loaded copy stays current.
pub fn spare_may_break()
    ensures { SpareMayBreak }
{}

/// If any prefix of what is saved is in the spare copy's place, the loaded copy stays current, or
/// the spare copy is right.
pub fn front_may_stand()
    ensures { FrontMayStand }
{}

/// If what is saved is in the spare copy's place, loading gives it, with the saved variables.
pub fn saved_is_loaded()
    ensures { SavedIsLoaded }
{}

/// In the escaped form, and if NUL bytes end the entries, no value forges an entry.
pub fn entries_stand_apart()
    ensures { EntriesStandApart }
{}

/// In the escaped form an entry has printable bytes alone before its end.
pub fn escaped_is_printable()
    ensures { EscapedIsPrintable }
{}

/// The data of a text always end: a text is refused only for a line that is no variable, or because memory ran out.
pub fn texts_end()
    ensures { TextsEnd }
{}
