// What the definitions of the answers come to: each function's contract is a law of them.
ghost use Rattle.questions.specs.Cases.{Cases};
ghost use Rattle.questions.specs.Laws.{EntryFixed, OrderFixed, DistancesNeverFall, WalksShown};

use crate::measure::Measure;
use crate::view::GraphView;

/// There is one entry that a key can have, so an answer over walks is one answer.
pub fn entries_fixed<M: Measure>()
    ensures { EntryFixed M.scale }
{}

/// There is one breadth-first list, and along it the distances in edges never fall.
pub fn order_stands()
    ensures fixed { OrderFixed }
    ensures distances { DistancesNeverFall }
{}

/// Walks from a key that a view shows lead to keys that it shows.
pub fn walks_stand<G: GraphView>(page: &G)
    ensures { WalksShown (G.graph page.now) }
{}

/// The worked case holds of the definitions.
pub fn cases_stand()
    ensures { Cases }
{}
