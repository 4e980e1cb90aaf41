//! Laws of runs over device lists of names alone, each the contract of a function that does nothing.

ghost use Rattle.rehearse_rules.specs.PlainExecution.{PlainListingsStand, PlainRestsStand, PlainRunsStand};

/// A run over a list in the plain form is the run over its names. A command of the list asks for an
/// outcome, which goes into the log and the status, and changes nothing else.
#[tactic(auto, using(crate::proofs::PlainRuns::plain_runs_stand))]
pub fn plain_runs_stand()
    ensures { PlainRunsStand }
{}

/// The listing over a list in the plain form has the bytes of the listing over its names.
#[tactic(auto, using(crate::proofs::PlainRuns::plain_listings_stand))]
pub fn plain_listings_stand()
    ensures { PlainListingsStand }
{}

/// The listing of the runs that follow a word has the same bytes over such a list, too.
#[tactic(auto, using(crate::proofs::PlainRuns::plain_rests_stand))]
pub fn plain_rests_stand()
    ensures { PlainRestsStand }
{}
