// What the walks of a snapshot or reach find, and what its page shows.
#![tactic(auto)]

ghost use Rattle.walks.specs.Answered.{RunsPagesRight};
ghost use Rattle.walks.specs.Budgets.{TurnsFit};
ghost use Rattle.walks.specs.Histories.{RunsGiveSteps};
ghost use Rattle.walks.specs.Surveys.{PagesStand};
ghost use Rattle.walks.specs.Walking.{WalksFind};
ghost use Rattle.walks.specs.Worked.{Worked};

/// A walk down the rows of a head finds the row that is visible at the number of the raise, or no row.
pub fn walks_find_visible_rows()
    ensures { WalksFind }
{}

/// Every answer of a snapshot or reach, and its page, is right of the graph at the number of its raise.
pub fn pages_show_visible_rows()
    ensures { PagesStand }
{}

/// A snapshot or reach of n keys takes at most 1 + 8 · n · n turns, and one for each row that is in a chain.
pub fn turns_stay_within_limit()
    ensures { TurnsFit }
{}

/// The states of a run are such a memory.
pub fn runs_give_steps()
    ensures { RunsGiveSteps }
{}

/// So every answer but 41 of a snapshot or reach of a run is right of the graph just before the key of its raise.
pub fn runs_pages_right()
    ensures { RunsPagesRight }
{}

/// What is asked of a run can be had.
pub fn worked_case_stands()
    ensures { Worked }
{}
