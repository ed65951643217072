// Runs as functions of time, and what holds of them over time.
#![tactic(auto)]

ghost use Rattle.runs.specs.Events.{RunsEvents};
ghost use Rattle.runs.specs.Marking.{RunsMarked};
ghost use Rattle.runs.specs.Reasons.{RunsKnow};
ghost use Rattle.runs.specs.Runs.{HistoriesAreRuns};
ghost use Rattle.runs.specs.Starts.{OpeningsEmpty};
ghost use Rattle.runs.specs.Steps.{RunsStep};
ghost use Rattle.runs.specs.Times.{RunsLast};
ghost use Rattle.runs.specs.Worked.{Worked};

/// Every history from a clean state is the history of a run, up to a time.
pub fn histories_are_runs()
    ensures { HistoriesAreRuns }
{}

/// What one step of a run does to the clock, to heads and to linked rows.
pub fn runs_step()
    ensures { RunsStep }
{}

/// What holds of a run from one time to a later one.
pub fn runs_last()
    ensures { RunsLast }
{}

/// Every worker knows what its place says, and every answer of a call on vertices or edges is right.
pub fn runs_know()
    ensures { RunsKnow }
{}

/// When rows are linked and ended, and in which order.
pub fn runs_events()
    ensures { RunsEvents }
{}

/// At each time the rows of a run have marks that keep the laws of marks.
pub fn runs_marked()
    ensures { RunsMarked }
{}

/// Every opening is clean and shows the empty graph.
pub fn openings_empty()
    ensures { OpeningsEmpty }
{}

/// A run can start with an edge.
pub fn worked_case_stands()
    ensures { Worked }
{}
