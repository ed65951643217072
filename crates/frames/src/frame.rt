// What a line asks for.
use layout::opening::Opening;
use places::call::Begin;
use std::num::NonZeroU8;

/// A frame: what a line asks for.
#[derive(Clone, Copy, PartialEq, Eq, Debug)]
pub enum Frame {
    /// Opens a run, or opens anew.
    Open(Opening),
    /// Begins a call of a worker.
    Begin(Begin),
    /// Gives a worker up to `count` turns, one at least.
    Turns { worker: u8, count: NonZeroU8 },
    /// Takes the page that a worker has finished, shows it and gives it back.
    Take { worker: u8 },
}
