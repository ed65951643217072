// A cell memory, seen by the names of its cells. A name past the end reads as 0, and sets nothing.
ghost use Rattle.std.specs.Prelude.{◌≡◌, ◌+◌, ◌^◌, ◌<◌, false, unwrap_or};
ghost use Rattle.cells.specs.Cells.{swap_of, swapped, raise_of, raised};
ghost use Rattle.layout.specs.Layout.{index_of};
ghost use Rattle.layout.specs.declared.names.Cell.TheVariants.{Clock};
ghost use Rattle.machine.specs.Effects.{put, zeroed};
ghost use Rattle.machine.specs.Turns.{cell_at};

use cells::CellMemory;
use layout::names::Cell;
use layout::sizes::Sizes;

// The number in a cell.
pub(crate) fn get<M: CellMemory>(memory: &mut M, sizes: Sizes, cell: Cell) -> u32
    ensures answer { result ≡ cell_at sizes (M.cells memory.old) cell }
    ensures after { M.cells memory.new ≡ M.cells memory.old }
    ensures spare { M.spare memory.new ≡ M.spare memory.old }
    ensures name { M.name memory.new ≡ M.name memory.old }
{
    memory.read(sizes.index(cell)).unwrap_or(0)
}

pub(crate) fn set<M: CellMemory>(memory: &mut M, sizes: Sizes, cell: Cell, v: u32)
    ensures after { M.cells memory.new ≡ put sizes (M.cells memory.old) cell v }
    ensures spare { M.spare memory.new ≡ M.spare memory.old }
    ensures name { M.name memory.new ≡ M.name memory.old }
{
    let _ = memory.write(sizes.index(cell), v);
}

// Whether the swap was done.
pub(crate) fn swap<M: CellMemory>(
    memory: &mut M,
    sizes: Sizes,
    cell: Cell,
    old: u32,
    new: u32,
) -> bool
    ensures answer { result ≡ unwrap_or (swap_of (M.cells memory.old) (index_of sizes cell) old) false }
    ensures after { M.cells memory.new ≡ swapped (M.cells memory.old) (index_of sizes cell) old new }
    ensures spare { M.spare memory.new ≡ M.spare memory.old }
    ensures name { M.name memory.new ≡ M.name memory.old }
{
    memory.swap(sizes.index(cell), old, new).unwrap_or(false)
}

// Raises the clock, and gives the number that it held.
pub(crate) fn raise<M: CellMemory>(memory: &mut M, sizes: Sizes) -> Option<u32>
    ensures answer { result ≡ raise_of (M.cells memory.old) (index_of sizes Clock) sizes.top }
    ensures after { M.cells memory.new ≡ raised (M.cells memory.old) (index_of sizes Clock) sizes.top }
    ensures spare { M.spare memory.new ≡ M.spare memory.old }
    ensures name { M.name memory.new ≡ M.name memory.old }
{
    memory.raise(sizes.index(Cell::Clock), sizes.top)
}

// Sets `n` cells to 0.
pub(crate) fn zero<M: CellMemory>(memory: &mut M, start: usize, n: usize)
    requires { start + n < 2 ^ 64 }
    ensures after { M.cells memory.new ≡ zeroed (M.cells memory.old) start n }
    ensures spare { M.spare memory.new ≡ M.spare memory.old }
    ensures name { M.name memory.new ≡ M.name memory.old }
{
    for k in 0..n {
        let _ = memory.write(start + k, 0);
    }
}
