// Opening a run.
ghost use Rattle.std.specs.Prelude.{◌≡◌, length, nat_lt, if◌then◌else◌, MatchResult, IfOk};
ghost use Rattle.layout.specs.Layout.{needed};
ghost use Rattle.machine.specs.Opening.{opened_cells, too_few, opened, reopened};
ghost use Rattle.promise.specs.Promise.{PromisedAtOpening};
ghost use Rattle.stepper.specs.Promised.{Starts};
ghost use Rattle.stepper.specs.Runs.{memory_of, state_of, opened_or};

use crate::named::{set, zero};
use crate::run::Run;
use cells::CellMemory;
use codes::Refusal;
use layout::names::Cell;
use layout::sizes::Sizes;
use machine::table::Table;

// Makes the cells that the sizes need those of an empty graph, where there are enough.
pub(crate) fn prepare<M: CellMemory>(memory: &mut M, sizes: Sizes) -> Result<(), Refusal>
    ensures answer { result ≡ too_few (M.cells memory.old) sizes }
    ensures after { M.cells memory.new ≡ opened_cells (M.cells memory.old) sizes }
    ensures spare { M.spare memory.new ≡ M.spare memory.old }
    ensures name { M.name memory.new ≡ M.name memory.old }
{
    let needed = sizes.needed();
    if memory.len() < needed {
        return Err(Refusal::TooFewCells);
    }
    zero(memory, 0, needed);
    set(memory, sizes, Cell::Clock, 1);
    Ok(())
}

impl<M: CellMemory> Run<M> {
    /// Opens a run over a memory: the clock is 1, every other cell that the sizes need is 0, and cells past them stay. Every
    /// worker is idle. Refused with `TooFewCells`, and then the memory comes back as it was.
    pub fn open(memory: M, sizes: Sizes) -> Result<Run<M>, (M, Refusal)>
        ensures answer { opened_or M.cells result ≡ opened (M.cells memory) sizes }
        ensures starts { IfOk result (λ r. Starts (state_of M.cells r)) }
        ensures spare { MatchResult result (λ r. M.spare (memory_of r) ≡ M.spare memory) (λ e. M.spare e.0 ≡ M.spare memory) }
        ensures name { MatchResult result (λ r. M.name (memory_of r) ≡ M.name memory) (λ e. M.name e.0 ≡ M.name memory) }
        ensures promise { PromisedAtOpening (M.cells memory) sizes }
    {
        let mut memory = memory;
        // A refusal takes the memory with it, so no `?`.
        match prepare(&mut memory, sizes) {
            Ok(()) => Ok(Run {
                memory,
                table: Table::fresh(sizes),
            }),
            Err(refusal) => Err((memory, refusal)),
        }
    }

    /// Opens anew over the same memory, and forgets the run before. Refused with `TooFewCells`, and then the run goes on.
    pub fn reopen(&mut self, sizes: Sizes) -> Result<(), Refusal>
        ensures answer { result ≡ too_few (state_of M.cells self.old).cells sizes }
        ensures after { state_of M.cells self.new ≡ reopened (state_of M.cells self.old) sizes }
        ensures starts { IfOk result (λ _. Starts (state_of M.cells self.new)) }
        ensures spare { M.spare (memory_of self.new) ≡ M.spare (memory_of self.old) }
        ensures name { M.name (memory_of self.new) ≡ M.name (memory_of self.old) }
        ensures promise { PromisedAtOpening (state_of M.cells self.old).cells sizes }
    {
        prepare(&mut self.memory, sizes)?;
        self.table = Table::fresh(sizes);
        Ok(())
    }

    /// Ends the run and hands its memory back, with its cells as they are.
    pub fn close(self) -> M
        ensures cells { M.cells result ≡ (state_of M.cells self).cells }
        ensures spare { M.spare result ≡ M.spare (memory_of self) }
        ensures name { M.name result ≡ M.name (memory_of self) }
    {
        let Run { memory, table: _ } = self;
        memory
    }
}
