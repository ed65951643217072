// Which operation on which named cell a turn does.
ghost use Rattle.std.specs.Prelude.{◌≡◌};
ghost use Rattle.places.specs.Touches.{look_head, look_kind, change_head, change_kind, job_head, head_kind, settled_field, settles, touch_of};

use crate::mark::PENDING;
use crate::place::{Change, Job, Look, Place, Purpose, Stage, Touch};
use layout::names::{Cell, Field, Head, Kind};

// The kind of the rows below a head.
fn kind_of(head: Head) -> Kind
    ensures { result ≡ head_kind head }
{
    match head {
        Head::Vertex(_) => Kind::Vertex,
        Head::Edge(_, _) => Kind::Edge,
    }
}

impl Look {
    fn head(self) -> Head
        ensures { result ≡ look_head self }
    {
        match self {
            Look::Vertex(_, i) => Head::Vertex(i),
            Look::Source(_, pair) => Head::Vertex(pair.from),
            Look::Target { pair, .. } => Head::Vertex(pair.to),
            Look::Edge(_, bound) => Head::Edge(bound.pair.from, bound.pair.to),
        }
    }

    fn kind(self) -> Kind
        ensures { result ≡ look_kind self }
    {
        kind_of(self.head())
    }
}

impl Change {
    /// The head of what is changed: of a key or of a pair.
    pub fn head(self) -> Head
        ensures { result ≡ change_head self }
    {
        match self {
            Change::Vertex(i) => Head::Vertex(i),
            Change::Edge(bound) => Head::Edge(bound.pair.from, bound.pair.to),
        }
    }

    /// The kind of its rows.
    pub fn kind(self) -> Kind
        ensures { result ≡ change_kind self }
    {
        kind_of(self.head())
    }
}

impl Job {
    fn head(self) -> Head
        ensures { result ≡ job_head self }
    {
        match self {
            Job::Key(i) | Job::Start(i) => Head::Vertex(i),
            Job::Pair(pair) => Head::Edge(pair.from, pair.to),
            Job::Target(pair, _) => Head::Vertex(pair.to),
        }
    }

    /// The kind of the rows that are walked.
    pub fn kind(self) -> Kind
        ensures { result ≡ head_kind (job_head self) }
    {
        kind_of(self.head())
    }
}

impl Purpose {
    // The field that is settled.
    fn field(self) -> Cell
        ensures { result ≡ settled_field self }
    {
        match self {
            Purpose::Look { field, look, row } => Cell::Stamp(look.kind(), field, row),
            Purpose::Own { field, change, row } => Cell::Stamp(change.kind(), field, row),
            Purpose::LostDel { change, row } => Cell::Stamp(change.kind(), Field::Del, row),
            Purpose::WinnerIns { row, .. } => Cell::Stamp(Kind::Vertex, Field::Ins, row),
            Purpose::SourceAgain { bound, .. } => Cell::Stamp(
                Kind::Vertex,
                Field::Del,
                bound.source,
            ),
            Purpose::CheckAgain { side, bound, .. } | Purpose::Compare { side, bound, .. } => {
                Cell::Stamp(Kind::Vertex, Field::Del, bound.row(side))
            }
            Purpose::Walk { field, walk, row } => Cell::Stamp(walk.job.kind(), field, row),
        }
    }
}

impl Stage {
    fn touch(self, field: Cell) -> Touch
        ensures { result ≡ settles field self }
    {
        match self {
            Stage::First | Stage::Reread => Touch::Read(field),
            Stage::Clock => Touch::Read(Cell::Clock),
            Stage::Swap(stamp) => Touch::Swap {
                cell: field,
                old: PENDING,
                new: stamp,
            },
        }
    }
}

impl Place {
    /// The touch of the place's next turn. `spare` is the worker's next row of the kind that it links: a link with none touches nothing.
    pub fn touch(&self, spare: Option<u32>) -> Touch
        ensures { result ≡ touch_of self.now spare }
    {
        match *self {
            Place::Idle => Touch::Nothing,
            Place::Head(look) => Touch::Read(Cell::Head(look.head())),
            Place::Settle { stage, purpose } => stage.touch(purpose.field()),
            Place::Link { change, head } => {
                spare.map_or(Touch::Nothing, |row| Touch::Link { change, head, row })
            }
            Place::End { change, row } => Touch::Swap {
                cell: Cell::Stamp(change.kind(), Field::Del, row),
                old: 0,
                new: PENDING,
            },
            Place::LostHead(key) => Touch::Read(Cell::Head(Head::Vertex(key))),
            Place::Raise(_) => Touch::Raise,
            Place::WalkHead(walk) => Touch::Read(Cell::Head(walk.job.head())),
            Place::WalkOlder { walk, row } => Touch::Read(Cell::Stamp(
                walk.job.kind(),
                Field::Ins,
                row,
            )),
        }
    }
}
