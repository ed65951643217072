// The index of a worker.
ghost use Rattle.std.specs.Prelude.{◌<◌};

/// The index of a worker that there is a record of, counted from 0.
#[derive(Clone, Copy, PartialEq, Eq, Debug)]
pub struct WorkerIndex {
    pub index: u8,
    ghost below: { index < 8 },
}
