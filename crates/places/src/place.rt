// The places of all calls.
ghost use Rattle.std.specs.Prelude.{◌≡◌};
ghost use Rattle.places.specs.Touches.{side_row};

use codes::Answer;
use layout::names::{Cell, Field};

/// What a call on a vertex or an edge does.
#[derive(Clone, Copy, PartialEq, Eq, Debug)]
pub enum Op {
    Add,
    Remove,
    Contains,
}

/// The arguments of an edge call: the key that the edge leaves, the key that it enters, and its weight, which only an add uses.
#[derive(Clone, Copy, PartialEq, Eq, Debug)]
pub struct Pair {
    pub from: u8,
    pub to: u8,
    pub weight: u32,
}

/// The two calls that make a page; a reach has a key to start from. As an Option neither would have a name.
#[derive(Clone, Copy, PartialEq, Eq, Debug)]
pub enum Survey {
    Snapshot,
    Reach(u8),
}

/// A call with its arguments. A vertex is named by its key.
#[derive(Clone, Copy, PartialEq, Eq, Debug)]
pub enum Call {
    Vertex(Op, u8),
    Edge(Op, Pair),
    Survey(Survey),
}

/// An edge call bound to the rows of its two vertices.
#[derive(Clone, Copy, PartialEq, Eq, Debug)]
pub struct Bound {
    pub pair: Pair,
    pub source: u32,
    pub target: u32,
}

/// The two ends of an edge.
#[derive(Clone, Copy, PartialEq, Eq, Debug)]
pub enum Side {
    Source,
    Target,
}

impl Bound {
    /// The row of the vertex at one end.
    pub fn row(self, side: Side) -> u32
        ensures { result ≡ side_row self side }
    {
        match side {
            Side::Source => self.source,
            Side::Target => self.target,
        }
    }
}

/// What is looked at: the vertex of a vertex call; the source, the target (with the row of the source) and the edge of an edge call.
#[derive(Clone, Copy, PartialEq, Eq, Debug)]
pub enum Look {
    Vertex(Op, u8),
    Source(Op, Pair),
    Target { op: Op, pair: Pair, source: u32 },
    Edge(Op, Bound),
}

/// What is changed: the vertex of a key, or a bound edge. Neither is an error, so no Result.
#[derive(Clone, Copy, PartialEq, Eq, Debug)]
pub enum Change {
    Vertex(u8),
    Edge(Bound),
}

/// What the look at an edge found: the row of the edge, or the head that it read and that is not the edge.
pub type Found = Result<u32, u32>;

/// A pair that a walk is about: the key at a position among the keys to serve, and another one.
#[derive(Clone, Copy, PartialEq, Eq, Debug)]
pub struct ServedPair {
    pub position: u8,
    pub from: u8,
    pub to: u8,
}

/// What a walk is for: a key of a snapshot; the start of a reach; a pair; the target of an edge row of a pair.
#[derive(Clone, Copy, PartialEq, Eq, Debug)]
pub enum Job {
    Key(u8),
    Start(u8),
    Pair(ServedPair),
    Target(ServedPair, u32),
}

/// A walk down the rows of one head: the call that it belongs to, and what it is for.
#[derive(Clone, Copy, PartialEq, Eq, Debug)]
pub struct Walk {
    pub survey: Survey,
    pub job: Job,
}

/// The turns that settle a field: read it; read the clock; swap pending for that number; read it again.
#[derive(Clone, Copy, PartialEq, Eq, Debug)]
pub enum Stage {
    First,
    Clock,
    Swap(u32),
    Reread,
}

/// What a settled field is wanted for. A look and a walk settle the ins of a row, then its del.
#[derive(Clone, Copy, PartialEq, Eq, Debug)]
pub enum Purpose {
    /// A look: `field` of `row`.
    Look {
        field: Field,
        look: Look,
        row: u32,
    },
    /// The worker's own change: the ins of the row that it linked, or the del that its swap made pending.
    Own {
        field: Field,
        change: Change,
        row: u32,
    },
    /// The del of `row`, which another worker's swap made pending.
    LostDel {
        change: Change,
        row: u32,
    },
    /// The ins of `row`, which another worker linked as the vertex of `key`.
    WinnerIns {
        key: u8,
        row: u32,
    },
    /// The del of the source once more, after both ends were looked at.
    SourceAgain {
        op: Op,
        bound: Bound,
    },
    /// The del of one end once more, after the look at the edge.
    CheckAgain {
        side: Side,
        op: Op,
        bound: Bound,
        found: Found,
    },
    /// The del of one end, to be compared with `stamp`, which the change of the edge row `row` bears in `field`.
    Compare {
        side: Side,
        bound: Bound,
        field: Field,
        row: u32,
        stamp: u32,
    },
    /// A walk: `field` of `row`.
    Walk {
        field: Field,
        walk: Walk,
        row: u32,
    },
}

/// Where a worker stands in its call; each place but `Idle` has one next turn.
#[derive(Clone, Copy, PartialEq, Eq, Debug)]
pub enum Place {
    /// In no call.
    Idle,
    /// At reading the head of what is looked at.
    Head(Look),
    /// At a stage of settling a field.
    Settle { stage: Stage, purpose: Purpose },
    /// At swapping the head that was read for a new row.
    Link { change: Change, head: u32 },
    /// At swapping the del of `row` from 0 to pending.
    End { change: Change, row: u32 },
    /// At reading the head of a key whose link was lost.
    LostHead(u8),
    /// At raising the clock.
    Raise(Survey),
    /// At reading the head that is walked.
    WalkHead(Walk),
    /// At reading the ins of an older row.
    WalkOlder { walk: Walk, row: u32 },
}

/// The one operation of a turn on one shared cell. A link also fills the worker's own row first.
#[derive(Clone, Copy, PartialEq, Eq, Debug)]
pub enum Touch {
    Nothing,
    Read(Cell),
    /// Sets the cell to `new` where it holds `old`.
    Swap { cell: Cell, old: u32, new: u32 },
    /// Adds one to the clock where it is below its greatest number.
    Raise,
    /// Fills `row` over `head`, and swaps the head from `head` to `row`.
    Link { change: Change, head: u32, row: u32 },
}

/// What the operation gave: the number that the cell held, where the operation was done.
pub type Got = Option<u32>;

/// What the worker has at hand without a turn: its next row, the number of its raise, and what never changes of the row in hand. It
/// comes beside a row in many functions, and is not of that row alone: the spare row and t are the worker's.
#[derive(Clone, Copy, PartialEq, Eq, Debug)]
pub struct Hand {
    pub spare: Option<u32>,
    pub t: u32,
    pub older: u32,
    pub source: u32,
    pub target: u32,
    pub weight: u32,
}

/// What is left to do of a turn when the place has moved: its answer, if it answered; a row linked; the clock raised; the end of a
/// walk, with the visible row, 0 if there is none.
#[derive(Clone, Copy, PartialEq, Eq, Debug)]
pub enum TurnOutcome {
    Moved(Option<Answer>),
    Linked(Change, u32),
    Raised(Survey, u32),
    Walked(Walk, u32),
}
