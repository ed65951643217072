// How many turns the calls of a run take.
#![tactic(auto)]

ghost use Rattle.bounds.specs.Bounds.{TurnsStayBounded};
ghost use Rattle.bounds.specs.Most.{TurnsAtMost};
ghost use Rattle.bounds.specs.Worked.{Worked};

/// The most turns that each call on vertices or edges takes.
pub fn turns_at_most()
    ensures { TurnsAtMost }
{}

/// So no other takes more than 48, but an add of an edge 52, and 52 more for each link that another worker made on its pair while it ran.
pub fn turns_stay_bounded()
    ensures { TurnsStayBounded }
{}

/// The worked runs reach the most turns.
pub fn worked_runs_stand()
    ensures { Worked }
{}
