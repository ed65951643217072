// Making sizes, and the index of a named cell.
ghost use Rattle.std.specs.Prelude.{◌≡◌};
ghost use Rattle.layout.specs.Limits.{numbers_of, sized};
ghost use Rattle.layout.specs.Layout.{index_of, needed, page_size, vertex_base, edge_base, page_base, row_start, page_start, stamp_offset};

use crate::names::{Cell, Field, Head, Kind};
use crate::sizes::Sizes;
use codes::Refusal;

impl Sizes {
    /// Sizes within their limits; else `SizeOutside`.
    pub fn new(
        keys: usize,
        workers: usize,
        vrows: usize,
        erows: usize,
        top: u32,
    ) -> Result<Sizes, Refusal>
        ensures { numbers_of result ≡ sized keys workers vrows erows top }
    {
        match (keys, workers, vrows, erows, top) {
            (1..=64, 1..=8, 1..=256, 1..=2048, 1..=1_000_000_000) => Ok(Sizes {
                keys,
                workers,
                vrows,
                erows,
                top,
            }),
            _ => Err(Refusal::SizeOutside),
        }
    }

    /// How many cells a page has: one for each key and one for each pair of keys.
    pub fn page_size(&self) -> usize
        ensures { result ≡ page_size self.now }
    {
        self.keys + self.keys * self.keys
    }

    fn vertex_base(&self) -> usize
        ensures { result ≡ vertex_base self.now }
    {
        1 + self.keys + self.keys * self.keys
    }

    fn edge_base(&self) -> usize
        ensures { result ≡ edge_base self.now }
    {
        self.vertex_base() + 3 * (self.workers * self.vrows)
    }

    fn page_base(&self) -> usize
        ensures { result ≡ page_base self.now }
    {
        self.edge_base() + 6 * (self.workers * self.erows)
    }

    /// How many cells an opening needs, at most 141,889.
    pub fn needed(&self) -> usize
        ensures { result ≡ needed self.now }
    {
        self.page_base() + self.workers * self.page_size()
    }

    // Where a row's cells start.
    fn row_start(&self, kind: Kind, row: u32) -> usize
        ensures { result ≡ row_start self.now kind row }
    {
        match kind {
            Kind::Vertex => self.vertex_base() + 3 * row.saturating_sub(1) as usize,
            Kind::Edge => self.edge_base() + 6 * row.saturating_sub(1) as usize,
        }
    }

    /// The number of the first cell of worker `w`'s page; its key cells come first, then its pair cells.
    pub fn page_start(&self, w: u8) -> usize
        ensures { result ≡ page_start self.now w }
    {
        self.page_base() + w as usize * self.page_size()
    }

    /// The number of a named cell, counted from 0: the one place that sends a name to its cell. A name outside the sizes gives a
    /// number that means nothing.
    pub fn index(&self, cell: Cell) -> usize
        ensures { result ≡ index_of self.now cell }
    {
        match cell {
            Cell::Clock => 0,
            Cell::Head(Head::Vertex(i)) => 1 + i as usize,
            Cell::Head(Head::Edge(i, j)) => 1 + self.keys + self.keys * i as usize + j as usize,
            Cell::Older(kind, row) => self.row_start(kind, row),
            Cell::Stamp(kind, field, row) => self.row_start(kind, row) + field.offset(),
            Cell::Source(row) => self.row_start(Kind::Edge, row) + 3,
            Cell::Target(row) => self.row_start(Kind::Edge, row) + 4,
            Cell::Weight(row) => self.row_start(Kind::Edge, row) + 5,
            Cell::PageKey(w, k) => self.page_start(w) + k as usize,
            Cell::PagePair(w, i, j) => self.page_start(w)
                + self.keys
                + self.keys * i as usize
                + j as usize,
        }
    }
}

impl Field {
    // Where a stamp lies in its row.
    fn offset(self) -> usize
        ensures { result ≡ stamp_offset self }
    {
        match self {
            Field::Ins => 1,
            Field::Del => 2,
        }
    }
}
