//! Laws of what runs read. A call of one does nothing: its contract is the law.

ghost use Rattle.rehearse_reads.specs.Laws.{CoveringJoins, FurtherReadsCover, KeysReadSuffice, MoreKeysInFront, RunsEndAlike, StatesGoAlike, StretchesJoin, UnheardRunsGoAlike};

/// The keys that are read before they are written are what has to be known before a stretch of a run,
/// and no key too many. Of one stretch after another these are what the first reads, and what the second
/// reads that the first has not written.
#[tactic(auto, using(crate::proofs::KeysRead::keys_read_suffice, crate::proofs::KeysRead::stretches_join, crate::proofs::KeysRead::more_keys_in_front))]
pub fn keys_of_stretches()
    ensures suffice { KeysReadSuffice }
    ensures joined { StretchesJoin }
    ensures more { MoreKeysInFront }
{}

/// Accesses may be reported in the place of those that a stretch makes, if no fewer keys have to be known
/// before them: they join as stretches do, and a key that is read besides does no harm.
#[tactic(auto, using(crate::proofs::KeysRead::covering_joins, crate::proofs::KeysRead::further_reads_cover))]
pub fn reports_cover()
    ensures joined { CoveringJoins }
    ensures further { FurtherReadsCover }
{}

/// From two states that agree on what a script reads before it writes it, and on the outcomes that are
/// left, the script goes on alike as far as the bounds allow: it ends in the same way, after the
/// same further device commands and as many steps, and the two states agree on the same keys and on all
/// that was written. Whatever else they have, as other variables, makes no difference.
#[tactic(auto, using(crate::proofs::AlikeRuns::states_go_alike))]
pub fn states_go_alike()
    ensures { StatesGoAlike }
{}

/// So does the text of a variable, up to the end of its run, which reads the status with which the text
/// ends: the word is a run in both cases or in neither, and the runs end alike.
#[tactic(auto, using(crate::proofs::AlikeRuns::runs_end_alike))]
pub fn runs_end_alike()
    ensures { RunsEndAlike }
{}

/// What a run writes makes no difference: if its text is dropped, it ends in the same way, after the same
/// device commands and as many steps, and leaves the same values of the variables of the environment.
pub fn unheard_runs_go_alike()
    ensures { UnheardRunsGoAlike }
{}
