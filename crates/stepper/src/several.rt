// Up to n turns of one worker.
ghost use Rattle.std.specs.Prelude.{◌≡◌};
ghost use Rattle.std.specs.Int.NonZero.{non_zero_u8_get};
ghost use Rattle.stepper.specs.Runs.{memory_of, state_of};
ghost use Rattle.machine.specs.Several.{TurnsMade, TurnsMadeOr, GrewOr};
ghost use Rattle.promise.specs.Several.{TurnsKept};

use crate::run::Run;
use cells::CellMemory;
use codes::Refusal;
use machine::several::Several;
use machine::worker_index::WorkerIndex;
use std::num::NonZeroU8;

impl<M: CellMemory> Run<M> {
    // Turns until one answers or `n` are made.
    fn make_turns(&mut self, index: WorkerIndex, n: u8) -> Several
        ensures made { TurnsMade (state_of M.cells self.old) index.index n result.answer result.used (state_of M.cells self.new) }
        ensures spare { M.spare (memory_of self.new) ≡ M.spare (memory_of self.old) }
        ensures name { M.name (memory_of self.new) ≡ M.name (memory_of self.old) }
    {
        // A closure that borrows the run tells a proof nothing of it, so no `find_map`.
        for i in 0..n {
            if let Some(answer) = self.advance(index) {
                return Several {
                    answer: Some(answer),
                    used: i + 1,
                };
            }
        }
        Several {
            answer: None,
            used: n,
        }
    }

    /// Up to `n` turns of worker `w`, counted from 0; it stops at the turn that answers. Refused with `NoSuchWorker` or
    /// `WorkerIdle`, and then no turn is made and nothing changes.
    pub fn turns(&mut self, w: u8, n: NonZeroU8) -> Result<Several, Refusal>
        ensures made { TurnsMadeOr (state_of M.cells self.old) w (non_zero_u8_get n) result (state_of M.cells self.new) }
        ensures spare { M.spare (memory_of self.new) ≡ M.spare (memory_of self.old) }
        ensures name { M.name (memory_of self.new) ≡ M.name (memory_of self.old) }
        ensures history { GrewOr (state_of M.cells self.old) w result (state_of M.cells self.new) }
        ensures promise { TurnsKept (state_of M.cells self.old) w result (state_of M.cells self.new) }
    {
        let index = self.busy_worker(w)?;
        Ok(self.make_turns(index, n.get()))
    }
}
