// One order of the calls of a run that explains their answers and pages: what it says, and from what it follows.
#![tactic(auto)]

ghost use Rattle.order.specs.Clean.{CleanStarts};
ghost use Rattle.order.specs.Ends.{OldRowsStand, RunsShowEnds};
ghost use Rattle.order.specs.Joined.{PastsJoin, RunsOver, StretchesJoin};
ghost use Rattle.order.specs.Marked.{FreshStands, MarkedStands};
ghost use Rattle.order.specs.Mistakes.{Mistakes};
ghost use Rattle.order.specs.Placed.{PlacedStands};
ghost use Rattle.order.specs.Raises.{RaisesShowVisible};
ghost use Rattle.order.specs.Seen.{PastsSeen};
ghost use Rattle.order.specs.Stands.{RaisesStand};
ghost use Rattle.order.specs.Started.{Started};
ghost use Rattle.order.specs.Worked.{Worked};

/// Calls that keys place have one order, which explains what the run shows of them.
pub fn placed_calls_have_one_order()
    ensures { PlacedStands }
{}

/// Calls whose run gives what it owes have one, from the graph at the start of the run on.
pub fn marked_calls_have_one_order()
    ensures { MarkedStands }
{}

/// Where no row is from before the start, that graph is empty.
pub fn fresh_calls_have_one_order()
    ensures { FreshStands }
{}

/// Where no row ended before the start, that graph is the one of the rows from before it, and the order ends in that of the rows that are there.
pub fn old_rows_have_one_order()
    ensures ends { RunsShowEnds }
    ensures order { OldRowsStand }
{}

/// A run can start with the rows of any graph.
pub fn clean_starts_are_marked()
    ensures { CleanStarts }
{}

/// A snapshot or reach stands after the changes that bear stamps up to its own number, and before all others.
pub fn raises_stand_by_stamps()
    ensures { RaisesStand }
{}

/// Where a past starts from the graph and the clock with which another ended, one order explains both.
pub fn stretches_have_one_order()
    ensures pasts { PastsJoin }
    ensures over { RunsOver }
    ensures stretches { StretchesJoin }
{}

/// The graph just before a raise of the clock is that of the rows which a snapshot or reach has to show.
pub fn raises_show_visible_rows()
    ensures { RaisesShowVisible }
{}

/// A past made of what is seen at each time tells what was seen, where workers begin one call at a time.
pub fn pasts_tell_what_was_seen()
    ensures { PastsSeen }
{}

/// An order can be had, and a run can give what it owes for it.
pub fn worked_case_stands()
    ensures { Worked }
{}

/// A run can start with vertices and edges and give what it owes.
pub fn worked_start_stands()
    ensures { Started }
{}

/// No order explains what known mistakes would show.
pub fn mistakes_have_no_order()
    ensures { Mistakes }
{}
