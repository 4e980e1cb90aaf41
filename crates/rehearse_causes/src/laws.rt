//! Laws of causes. A call of one does nothing: its contract is the law.
ghost use Rattle.rehearse_causes.specs.Laws.{CausesAreRuns, CausesStandAlone, ChecksAreRight, RunsHaveCauses};

/// A cause is what fails in one of the runs. Each run has the ending of a cause of which nothing fails
/// that does not fail in the run. No cause has all that fails in another one with its ending. A check
/// finds nothing just if every run boots.
pub fn causes_of_runs()
    ensures runs { CausesAreRuns }
    ensures each { RunsHaveCauses }
    ensures alone { CausesStandAlone }
    ensures checks { ChecksAreRight }
{}
