//! Laws of device lists, each the contract of a function that does nothing.

ghost use Rattle.device_list.specs.DeviceLaws.{FilesChangeNothing, LinesAreJoined, NamesAreQuiet};
ghost use Rattle.device_list.specs.Kinds.{LinesGoByKinds, ListsGoByKinds, FurtherKindsChangeNothing, KindsAreAll, UnusedKindsSayNothing};
ghost use Rattle.device_list.specs.PlainList.{PlainListsStand};

/// A name is listed if a line names it, and does what all lines of that name say. It is final if
/// one of them is, and sets what they set, in their order.
#[tactic(auto, using(crate::proofs::JoinedLines::lines_are_joined))]
pub fn lines_are_joined()
    ensures { LinesAreJoined }
{}

/// A list with no second word in any line says only names: no command ends a run or sets a
/// variable.
pub fn names_are_quiet()
    ensures { NamesAreQuiet }
{}

/// Every list in the plain form, which has one name on each line and comments and empty lines
/// between, is accepted with the same names, if it starts with no byte order mark. None of them is
/// final, and none sets a variable.
#[tactic(auto, using(crate::proofs::PlainLists::plain_lists_stand))]
pub fn plain_lists_stand()
    ensures { PlainListsStand }
{}

/// With some kinds of lines alone, a line that uses only these is read as it is with every kind, and a
/// line that uses another kind is a bad line.
#[tactic(auto, using(crate::proofs::KindsOfLines::lines_go_by_kinds))]
pub fn lines_go_by_kinds()
    ensures { LinesGoByKinds }
{}

/// So a list whose lines use only some kinds is read the same with these kinds alone.
#[tactic(auto, using(crate::proofs::KindsOfLines::lists_go_by_kinds))]
pub fn lists_go_by_kinds()
    ensures { ListsGoByKinds }
{}

/// A list that is accepted with some kinds alone is accepted with every kind, and says the same.
pub fn further_kinds_change_nothing()
    ensures { FurtherKindsChangeNothing }
{}

/// A list read with every kind of `every_kind` is the list: there is no other kind.
#[tactic(auto, using(crate::proofs::KindsOfLines::kinds_are_all))]
pub fn kinds_are_all()
    ensures { KindsAreAll }
{}

/// A list says nothing of a kind that none of its lines uses: without `steady` lines no answer stays,
/// without `known` lines no command is computed, and so on.
#[tactic(auto, using(crate::proofs::UnusedKinds::unused_kinds_say_nothing))]
pub fn unused_kinds_say_nothing()
    ensures { UnusedKindsSayNothing }
{}

/// A list that is accepted without files is accepted with any, and says the same.
#[tactic(auto, using(crate::proofs::FileLemmas::files_change_nothing))]
pub fn files_change_nothing()
    ensures { FilesChangeNothing }
{}
