//! Laws of the start of a board, each the contract of a function that does nothing.

ghost use Rattle.board_start.specs.StartLaws.{AlternativeBeyondTheLimit, AlternativesAreFew, NoCounterIsSaid, NothingIsCounted, NothingIsGiven, OtherListsStand};

/// A list without lines of the start says of commands what it says without this crate, and nothing
/// of the start.
#[tactic(auto, using(crate::proofs::OtherLists::other_lists_stand))]
pub fn other_lists_stand()
    ensures { OtherListsStand }
{}

/// Where nothing is said of the start, a rehearsal begins as it is given.
pub fn nothing_is_given()
    ensures { NothingIsGiven }
{}

/// A list without a line of a boot counter has none.
#[tactic(auto, using(crate::proofs::CounterLemmas::no_counter_is_said))]
pub fn no_counter_is_said()
    ensures { NoCounterIsSaid }
{}

/// Without a boot counter a rehearsal starts with the variables that are given and the texts that run
/// first alone, and U-Boot saves nothing before it.
#[tactic(auto, using(crate::proofs::CounterLemmas::nothing_is_counted))]
pub fn nothing_is_counted()
    ensures { NothingIsCounted }
{}

/// With a boot counter the text of the alternative is rehearsed exactly beyond the limit.
#[tactic(auto, using(crate::proofs::LimitLemmas::alternative_beyond_the_limit))]
pub fn alternative_beyond_the_limit()
    ensures { AlternativeBeyondTheLimit }
{}

/// A list that is accepted has at most 64 alternatives.
#[tactic(auto, using(crate::proofs::ChoiceLemmas::alternatives_are_few))]
pub fn alternatives_are_few()
    ensures { AlternativesAreFew }
{}
