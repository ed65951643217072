// The touches of a turn, on any cell memory.
ghost use Rattle.std.specs.Prelude.{◌≡◌};
ghost use Rattle.machine.specs.Effects.{filled, linked_cells, link_done, got_of, cells_after, entered};

use crate::named::{get, raise, set, swap, zero};
use books::walked::Entry;
use cells::CellMemory;
use layout::names::{Cell, Field};
use layout::sizes::Sizes;
use places::mark::PENDING;
use places::place::{Change, Got, Touch};

// Fills a worker's own row: older is the head that was read, ins pending, del 0, and an edge row is bound.
fn fill<M: CellMemory>(memory: &mut M, sizes: Sizes, change: Change, head: u32, row: u32)
    ensures after { M.cells memory.new ≡ filled sizes (M.cells memory.old) change head row }
    ensures spare { M.spare memory.new ≡ M.spare memory.old }
    ensures name { M.name memory.new ≡ M.name memory.old }
{
    let kind = change.kind();
    set(memory, sizes, Cell::Older(kind, row), head);
    set(memory, sizes, Cell::Stamp(kind, Field::Ins, row), PENDING);
    set(memory, sizes, Cell::Stamp(kind, Field::Del, row), 0);
    if let Change::Edge(bound) = change {
        set(memory, sizes, Cell::Source(row), bound.source);
        set(memory, sizes, Cell::Target(row), bound.target);
        set(memory, sizes, Cell::Weight(row), bound.pair.weight);
    }
}

// Fills a row and swaps the head to it.
fn link<M: CellMemory>(memory: &mut M, sizes: Sizes, change: Change, head: u32, row: u32) -> bool
    ensures answer { result ≡ link_done sizes (M.cells memory.old) change head row }
    ensures after { M.cells memory.new ≡ linked_cells sizes (M.cells memory.old) change head row }
    ensures spare { M.spare memory.new ≡ M.spare memory.old }
    ensures name { M.name memory.new ≡ M.name memory.old }
{
    fill(memory, sizes, change, head, row);
    swap(memory, sizes, Cell::Head(change.head()), head, row)
}

/// Does one touch of a shared cell, and says what it gave.
// One arm for each clause of `got_of`, so a match and no table of closures.
pub fn perform<M: CellMemory>(memory: &mut M, sizes: Sizes, touch: Touch) -> Got
    ensures answer { result ≡ got_of sizes (M.cells memory.old) touch }
    ensures after { M.cells memory.new ≡ cells_after sizes (M.cells memory.old) touch }
    ensures spare { M.spare memory.new ≡ M.spare memory.old }
    ensures name { M.name memory.new ≡ M.name memory.old }
{
    match touch {
        Touch::Nothing => None,
        Touch::Read(cell) => Some(get(memory, sizes, cell)),
        Touch::Swap { cell, old, new } => swap(memory, sizes, cell, old, new).then_some(old),
        Touch::Link { change, head, row } => link(memory, sizes, change, head, row).then_some(head),
        Touch::Raise => raise(memory, sizes),
    }
}

/// Writes into the page of worker `w`, counted from 0.
// One arm for each clause of `entered`, so a match and no table of closures.
pub fn enter<M: CellMemory>(memory: &mut M, sizes: Sizes, w: u8, entry: Entry)
    ensures after { M.cells memory.new ≡ entered sizes w (M.cells memory.old) entry }
    ensures spare { M.spare memory.new ≡ M.spare memory.old }
    ensures name { M.name memory.new ≡ M.name memory.old }
{
    match entry {
        Entry::Nothing => {}
        Entry::Clear => zero(memory, sizes.page_start(w), sizes.page_size()),
        Entry::Key { key, row } => set(memory, sizes, Cell::PageKey(w, key), row),
        Entry::Pair { from, to, weight } => set(memory, sizes, Cell::PagePair(w, from, to), weight),
        Entry::Join {
            from,
            to,
            weight,
            row,
        } => {
            set(memory, sizes, Cell::PagePair(w, from, to), weight);
            set(memory, sizes, Cell::PageKey(w, to), row);
        }
    }
}
