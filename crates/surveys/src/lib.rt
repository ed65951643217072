// What the snapshots and reaches of a run answer, as the order wants it.
#![tactic(auto)]

ghost use Rattle.surveys.specs.Marked.{SurveysMarked};
ghost use Rattle.surveys.specs.Pages.{PageGraphsStay};
ghost use Rattle.surveys.specs.Records.{PagesAgree};
ghost use Rattle.surveys.specs.Raises.{OnlySurveysRaise};

/// No other call raises the clock.
pub fn only_surveys_raise()
    ensures { OnlySurveysRaise }
{}

/// A page shows what it showed at an answer, until its worker next begins a snapshot or reach.
pub fn pages_stay()
    ensures { PageGraphsStay }
{}

/// So a snapshot or reach that was finished has a key, and there it finds and shows what it answered.
pub fn surveys_marked()
    ensures { SurveysMarked }
{}

/// The key cells of a page hold what its worker's book says, from the raise on until the worker next begins a snapshot or reach.
pub fn pages_agree()
    ensures { PagesAgree }
{}
