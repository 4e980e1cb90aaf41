//! Laws of rehearsals. A call of one does nothing: its contract is the law.

ghost use Rattle.rehearse_rules.specs.Laws.{NoRunTwice, NoRunBeginsAnother, NoRunIsLonger, RunsAreThere, AnotherFollows};
ghost use Rattle.rehearse_rules.specs.Laws.{RunsPartWhereAsked, LogIsWord, WholeLogIsWord, AnswersStay, NeedsAreMet};
ghost use Rattle.rehearse_rules.specs.Laws.{StepsAreBounded, DevicesAreBounded, CutAtStepBound, CutAtDeviceBound, AskedBelowBound};
ghost use Rattle.rehearse_rules.specs.Laws.{AskedInFront, SharedIsWithin};
ghost use Rattle.rehearse_rules.specs.Laws.{RunsBegin, RunsFollow, RunsStand, RunsAreRuns, RunsAreOrdered};
ghost use Rattle.rehearse_rules.specs.Laws.{OneIsExpected, FailuresCount, AllMayFail, FewerAmongMore, FewerAreMore, FewRuns, NoneMayFail};
ghost use Rattle.rehearse_rules.specs.Laws.{MoreIsLeft, PagesOfRuns, PagesOfRest};
ghost use Rattle.rehearse_rules.specs.Laws.{WholeIsGreatest, WholeRecords, Resuming};
ghost use Rattle.rehearse_rules.specs.Laws.{ResumePoint, ResumedAtPoint, ResumedRest};

/// There is a run. None is in the list twice, none is a prefix of another, and none is longer than
/// the device bound. Another run follows exactly if one of a run's successes may be a failure.
pub fn words_of_runs()
    ensures distinct { NoRunTwice }
    ensures no_prefix { NoRunBeginsAnother }
    ensures bounded { NoRunIsLonger }
    ensures some { RunsAreThere }
    ensures another { AnotherFollows }
{}

/// The outcomes in a run's log, without the commands that were given an answer again, are its word; if
/// the device list says of no answer that it stays, there is no such command. Two runs differ first at
/// an outcome that a device command asks for. If the answers of two commands of the log stay, and their words are the same, the
/// later one has the answer of the earlier one, and no outcome of the word. A call that succeeds has a success of the call that
/// it needs before it in the log.
pub fn outcomes_of_runs()
    ensures logged { LogIsWord }
    ensures whole { WholeLogIsWord }
    ensures parted { RunsPartWhereAsked }
    ensures stays { AnswersStay }
    ensures needs { NeedsAreMet }
{}

/// No run goes past a bound, and none is cut before it.
pub fn bounds_of_runs()
    ensures steps { StepsAreBounded }
    ensures devices { DevicesAreBounded }
    ensures cut_steps { CutAtStepBound }
    ensures cut_devices { CutAtDeviceBound }
    ensures asked { AskedBelowBound }
{}

/// If a word is a prefix of another, the steps begun before the command that asks for the next
/// outcome are steps of the longer word too. So work, which counts shared steps once, never
/// subtracts more than there is.
pub fn work_of_runs()
    ensures front { AskedInFront }
    ensures shared { SharedIsWithin }
{}

/// The runs are exactly the words that are runs and have no more unexpected answers than allowed, in
/// dictionary order. The laws say which run comes first, and which comes after another.
pub fn order_of_runs()
    ensures begin { RunsBegin }
    ensures follow { RunsFollow }
    ensures stand { RunsStand }
    ensures alone { RunsAreRuns }
    ensures ordered { RunsAreOrdered }
{}

/// Of the two outcomes of a device command that asks, one is expected, and the other one counts; where the list says of no
/// failure that it is expected, the failures count. If as many may be as a run may ask, the runs are all runs. If fewer
/// may, they are some of the runs in which one more may, and no more than a power of what a run may ask; and where none may,
/// the first run is the only one.
pub fn few_failures()
    ensures expected { OneIsExpected }
    ensures failures { FailuresCount }
    ensures all { AllMayFail }
    ensures among { FewerAmongMore }
    ensures more { FewerAreMore }
    ensures few { FewRuns }
    ensures none { NoneMayFail }
{}

/// Pages made by a limit, without their lines `more`, are together the listing without a limit. A
/// page ends with `more` exactly if words are left out.
pub fn pages()
    ensures more { MoreIsLeft }
    ensures of_runs { PagesOfRuns }
    ensures of_rest { PagesOfRest }
{}

/// A listing that broke off goes on from its whole records.
pub fn whole_records()
    ensures greatest { WholeIsGreatest }
    ensures split { WholeRecords }
    ensures resumed { Resuming }
{}

/// The point to resume at is found in what was written, for every prefix of a listing.
pub fn resume_point()
    ensures point { ResumePoint }
    ensures all { ResumedAtPoint }
    ensures rest { ResumedRest }
{}
