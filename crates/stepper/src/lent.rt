// A run over a memory that the caller lends. A memory that is handed on by value tells its lender nothing afterwards, and one
// behind a `&mut` does.
ghost use Rattle.std.specs.Prelude.{◌≡◌, IfOk};
ghost use Rattle.machine.specs.Opening.{opened_cells, too_few};
ghost use Rattle.stepper.specs.Lent.{Ready, fresh_state};
ghost use Rattle.stepper.specs.Runs.{memory_of, state_of};

use crate::open::prepare;
use crate::run::Run;
use cells::CellMemory;
use codes::Refusal;
use layout::sizes::Sizes;
use machine::table::Table;

/// Makes a lent memory that of an empty graph, as an opening does: `Run::over` stands a run on it. Refused with
/// `TooFewCells`, and then nothing changes.
pub fn clear<M: CellMemory>(memory: &mut M, sizes: Sizes) -> Result<(), Refusal>
    ensures answer { result ≡ too_few (M.cells memory.old) sizes }
    ensures after { M.cells memory.new ≡ opened_cells (M.cells memory.old) sizes }
    ensures ready { IfOk result (λ _. Ready (M.cells memory.new) sizes) }
    ensures spare { M.spare memory.new ≡ M.spare memory.old }
    ensures name { M.name memory.new ≡ M.name memory.old }
{
    prepare(memory, sizes)
}

impl<'a, M: CellMemory> Run<&'a mut M> {
    /// A run over a lent memory that `clear` has made ready for these sizes.
    pub fn over(memory: &'a mut M, sizes: Sizes) -> Run<&'a mut M>
        requires { Ready (M.cells memory.old) sizes }
        ensures same_reference { (memory_of result).ghost_name ≡ memory.entry.ghost_name }
        ensures memory { (memory_of result).now ≡ memory.old }
        ensures state { state_of (λ s. M.cells s.now) result ≡ fresh_state (M.cells memory.old) sizes }
    {
        Run {
            memory,
            table: Table::fresh(sizes),
        }
    }
}
