//! Laws of endings. A call of one does nothing: its contract is the law.
ghost use Rattle.rehearse_endings.specs.Laws.{RunsAreCounted, RowsCountRuns, NoEndingTwice, RowsTellOfRuns, UnheardEndings, UnheardFlows};

/// A row counts the runs that end like this, and the counts sum up to the number of runs. No two
/// rows have the same ending. The words of a row are the first run that ends like this, and the first
/// of these runs with the fewest failures.
pub fn endings_of_runs()
    ensures counted { RunsAreCounted }
    ensures each { RowsCountRuns }
    ensures apart { NoEndingTwice }
    ensures words { RowsTellOfRuns }
{}

/// A rehearsal of which the text is dropped has the same endings, and its flow is one of the rehearsal.
pub fn unheard_endings()
    ensures rows { UnheardEndings }
    ensures flow { UnheardFlows }
{}
