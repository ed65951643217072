// Laws of the machine.
ghost use Rattle.machine.specs.Several.{TurnsMadeOnce, TurnsMadeStand};
ghost use Rattle.machine.specs.Spent.{RowsSpentExactly, ClockSpentExactly, PagesCounted};

/// What several turns of a worker come to can be computed, and they come to nothing else.
pub fn turns_made_stand()
    ensures stand { TurnsMadeStand }
    ensures once { TurnsMadeOnce }
{}

/// A turn answers 40 exactly if its worker is at a link with no row of its own left, and 41 exactly if it is at a raise while
/// the clock is at its greatest number.
pub fn spent_exactly()
    ensures rows { RowsSpentExactly }
    ensures clock { ClockSpentExactly }
{}

/// The count of a worker's finished pages goes up by one with each of its answers 30 and 31, and with nothing else.
pub fn pages_are_counted()
    ensures { PagesCounted }
{}
