// What a session is from one line to the next.
use cells::CellMemory;
use stepper::run::Run;

/// A session over a cell memory: nothing is open, or a run is. It has the memory by value either way.
// Neither is an error, so no Result.
#[derive(Drop)]
pub enum Session<M: CellMemory> {
    /// Nothing is open over the memory.
    Closed(M),
    /// A run is open over it.
    Open(Run<M>),
}
