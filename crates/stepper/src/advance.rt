// One turn of a worker, on a memory and the records.
ghost use Rattle.std.specs.Prelude.{◌≡◌, []};
ghost use Rattle.machine.specs.States.{state_in};
ghost use Rattle.machine.specs.Workers.{CanCount};
ghost use Rattle.machine.specs.Turns.{worker_at, spare_for, older_at, edge_cell, hand_at, answer_at, turned};

use crate::named::get;
use crate::perform::{enter, perform};
use cells::CellMemory;
use codes::Answer;
use layout::names::{Cell, Kind};
use layout::rows::NO_ROW;
use layout::sizes::Sizes;
use machine::table::Table;
use machine::worker_index::WorkerIndex;
use places::place::Hand;

// Older of a row, where one is wanted.
fn older<M: CellMemory>(memory: &mut M, sizes: Sizes, row: Option<(Kind, u32)>) -> u32
    ensures answer { result ≡ older_at sizes (M.cells memory.old) row }
    ensures after { M.cells memory.new ≡ M.cells memory.old }
    ensures spare { M.spare memory.new ≡ M.spare memory.old }
    ensures name { M.name memory.new ≡ M.name memory.old }
{
    match row {
        Some((kind, row)) => get(memory, sizes, Cell::Older(kind, row)),
        None => NO_ROW,
    }
}

// A cell of an edge row, where one is wanted.
fn edge<M: CellMemory>(memory: &mut M, sizes: Sizes, row: u32, cell: Cell) -> u32
    ensures answer { result ≡ edge_cell sizes (M.cells memory.old) cell row }
    ensures after { M.cells memory.new ≡ M.cells memory.old }
    ensures spare { M.spare memory.new ≡ M.spare memory.old }
    ensures name { M.name memory.new ≡ M.name memory.old }
{
    if row == NO_ROW {
        0
    } else {
        get(memory, sizes, cell)
    }
}

// The worker's next row of the kind that it links.
fn spare(table: &Table, index: WorkerIndex, kind: Option<Kind>) -> Option<u32>
    ensures { result ≡ spare_for table.now.sizes index.index (worker_at (state_in [] table.now) index.index) kind }
{
    let kind = kind?;
    let linked = table.worker(index).linked(kind);
    table.sizes.row_at(kind, index.index, linked)
}

// What the worker has at hand without a turn.
fn hand<M: CellMemory>(memory: &mut M, table: &Table, index: WorkerIndex) -> Hand
    ensures answer { result ≡ hand_at (state_in (M.cells memory.old) table.now) index.index }
    ensures after { M.cells memory.new ≡ M.cells memory.old }
    ensures spare { M.spare memory.new ≡ M.spare memory.old }
    ensures name { M.name memory.new ≡ M.name memory.old }
{
    let worker = table.worker(index);
    let row = worker.place.edge_row();
    Hand {
        spare: spare(table, index, worker.place.link_kind()),
        t: worker.book.t,
        older: older(memory, table.sizes, worker.place.older_row()),
        source: edge(memory, table.sizes, row, Cell::Source(row)),
        target: edge(memory, table.sizes, row, Cell::Target(row)),
        weight: edge(memory, table.sizes, row, Cell::Weight(row)),
    }
}

// One turn: one touch, and what follows from the place and what the touch gave.
pub(crate) fn advance<M: CellMemory>(
    memory: &mut M,
    table: &mut Table,
    index: WorkerIndex,
) -> Option<Answer>
    requires { CanCount (worker_at (state_in (M.cells memory.old) table.old) index.index) }
    ensures answer { result ≡ answer_at (state_in (M.cells memory.old) table.old) index.index }
    ensures after { state_in (M.cells memory.new) table.new ≡ turned (state_in (M.cells memory.old) table.old) index.index }
    ensures spare { M.spare memory.new ≡ M.spare memory.old }
    ensures name { M.name memory.new ≡ M.name memory.old }
{
    let sizes = table.sizes;
    let hand = hand(memory, table, index);
    let touch = table.worker(index).place.touch(hand.spare);
    let got = perform(memory, sizes, touch);
    let step = table.follow(index, hand, got);
    enter(memory, sizes, index.index, step.entry);
    step.answer
}
