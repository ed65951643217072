// The names of the cells.

/// The two sorts of rows. Vertex rows and edge rows are numbered apart, from 1; row 0 is none.
#[derive(Clone, Copy, PartialEq, Eq, Debug)]
pub enum Kind {
    Vertex,
    Edge,
}

/// The two fields of a row that hold stamps.
#[derive(Clone, Copy, PartialEq, Eq, Debug)]
pub enum Field {
    Ins,
    Del,
}

/// The head of a key's rows, or of a pair's.
#[derive(Clone, Copy, PartialEq, Eq, Debug)]
pub enum Head {
    Vertex(u8),
    Edge(u8, u8),
}

/// The names of the cells. Keys and workers count from 0, rows of each kind from 1; a stamp is a field of a row, and `Source`,
/// `Target` and `Weight` are of an edge row.
#[derive(Clone, Copy, PartialEq, Eq, Debug)]
pub enum Cell {
    Clock,
    Head(Head),
    Older(Kind, u32),
    Stamp(Kind, Field, u32),
    Source(u32),
    Target(u32),
    Weight(u32),
    PageKey(u8, u8),
    PagePair(u8, u8, u8),
}
