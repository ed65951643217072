// The whole promise over histories of requests, from requests, replies and cells alone, and the cases that show what it says.
#![tactic(auto)]

ghost use Rattle.promise.specs.Chains.{RowsStandInChains};
ghost use Rattle.promise.specs.Named.{PagesNamed};
ghost use Rattle.promise.specs.Promise.{OpeningsPromised, PromiseHolds, RestsKeep};
ghost use Rattle.promise.specs.Worked.{Worked};

/// What the definitions say of worked histories, and a page that they refuse.
pub fn worked_cases_stand()
    ensures { Worked }
{}

/// A refusal keeps it, and so does each request that begins no call and gives no turn.
pub fn rests_keep()
    ensures { RestsKeep }
{}

/// Pages read as lists of cells show what they show cell by cell.
pub fn pages_are_named()
    ensures { PagesNamed }
{}

/// So the promise holds of every history from a clean state, with the graph that the state shows.
pub fn promise_holds()
    ensures { PromiseHolds }
{}

/// So it holds of every history of every opening, from the empty graph on.
pub fn openings_are_promised()
    ensures { OpeningsPromised }
{}

/// The rows by which a snapshot or reach is bounded, those of the heads at the start and those linked since, are the rows that stand in chains.
pub fn rows_stand_in_chains()
    ensures { RowsStandInChains }
{}
