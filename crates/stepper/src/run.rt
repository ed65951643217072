// A run: a cell memory, held by value, beside the sizes and the records of the workers.
ghost use Rattle.std.specs.Prelude.{◌≤◌, length};
ghost use Rattle.layout.specs.Layout.{needed};
ghost use Rattle.machine.specs.States.{state_in};
ghost use Rattle.machine.specs.Counts.{Counts};

use cells::CellMemory;
use machine::table::Table;

/// A run over a cell memory. The graph is in the cells and nowhere else; beside them the run keeps a record of each worker.
/// The memory has the cells that the sizes need, and every count of a worker can go up by one.
#[derive(Drop)]
pub struct Run<M: CellMemory> {
    pub(crate) memory: M,
    pub(crate) table: Table,
    ghost room: { needed table.sizes ≤ length (M.cells memory) },
    ghost counts: { Counts (state_in (M.cells memory) table) },
}
