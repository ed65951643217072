// What a turn has to know of private cells, beside the cell that it touches.
ghost use Rattle.std.specs.Prelude.{◌≡◌};
ghost use Rattle.places.specs.Private.{link_kind, older_row, edge_row, job_edge};

use crate::place::{Job, Look, Place, Purpose, Walk};
use layout::names::{Field, Kind};
use layout::rows::NO_ROW;

impl Walk {
    // The edge row that the walk is about.
    fn edge_row(self, row: u32) -> u32
        ensures { result ≡ job_edge self.job row }
    {
        match self.job {
            Job::Target(_, edge) => edge,
            Job::Pair(_) => row,
            _ => NO_ROW,
        }
    }
}

impl Place {
    /// The kind of row that a link takes, where the place is at one.
    pub fn link_kind(&self) -> Option<Kind>
        ensures { result ≡ link_kind self.now }
    {
        match *self {
            Place::Link { change, .. } => Some(change.kind()),
            _ => None,
        }
    }

    /// The row whose older may be wanted, with its kind.
    pub fn older_row(&self) -> Option<(Kind, u32)>
        ensures { result ≡ older_row self.now }
    {
        match *self {
            Place::Settle {
                purpose: Purpose::Walk {
                    field: Field::Ins,
                    walk,
                    row,
                },
                ..
            } => Some((walk.job.kind(), row)),
            Place::WalkOlder { walk, row } => Some((walk.job.kind(), row)),
            _ => None,
        }
    }

    /// The edge row whose source, target or weight may be wanted; 0 if there is none.
    pub fn edge_row(&self) -> u32
        ensures { result ≡ edge_row self.now }
    {
        match *self {
            Place::Settle {
                purpose: Purpose::Look {
                    field: Field::Del,
                    look: Look::Edge(_, _),
                    row,
                },
                ..
            } => row,
            Place::Settle {
                purpose: Purpose::Walk {
                    field: Field::Ins,
                    walk,
                    ..
                },
                ..
            } => walk.edge_row(NO_ROW),
            Place::Settle {
                purpose: Purpose::Walk {
                    field: Field::Del,
                    walk,
                    row,
                },
                ..
            } => walk.edge_row(row),
            Place::WalkHead(walk) => walk.edge_row(NO_ROW),
            Place::WalkOlder { walk, .. } => walk.edge_row(NO_ROW),
            _ => NO_ROW,
        }
    }
}
