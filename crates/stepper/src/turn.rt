// One turn of a worker.
ghost use Rattle.std.specs.Prelude.{◌≡◌, ◌<◌, ◌≤◌, IfOk, MatchResult};
ghost use Rattle.std.specs.Result.{result_err};
ghost use Rattle.stepper.specs.Runs.{memory_of, state_of};
ghost use Rattle.machine.specs.Requests.{turn_refused, turn_answer, answered_or, stepped};
ghost use Rattle.machine.specs.History.{Extends};
ghost use Rattle.promise.specs.Promise.{PromiseKept};
ghost use Rattle.machine.specs.declared.request.Request.TheVariants.{Turn};
ghost use Rattle.codes.specs.declared.refusal.Refusal.TheVariants.{NoSuchWorker};
ghost use Rattle.machine.specs.Turns.{answer_at, turned};

use crate::advance::advance;
use crate::run::Run;
use cells::CellMemory;
use codes::{Answer, Refusal};
use machine::worker_index::WorkerIndex;

impl<M: CellMemory> Run<M> {
    // The index of a worker that there is.
    pub(crate) fn worker_index(&self, w: u8) -> Result<WorkerIndex, Refusal>
        ensures { MatchResult result (λ i. (i.index ≡ w) × (w < self.now.table.sizes.workers)) (λ e. (e ≡ NoSuchWorker) × (self.now.table.sizes.workers ≤ w)) }
    {
        if w as usize >= self.table.sizes.workers {
            return Err(Refusal::NoSuchWorker);
        }
        Ok(WorkerIndex { index: w })
    }

    // A turn of a worker.
    pub(crate) fn advance(&mut self, index: WorkerIndex) -> Option<Answer>
        ensures answer { result ≡ answer_at (state_of M.cells self.old) index.index }
        ensures after { state_of M.cells self.new ≡ turned (state_of M.cells self.old) index.index }
        ensures spare { M.spare (memory_of self.new) ≡ M.spare (memory_of self.old) }
        ensures name { M.name (memory_of self.new) ≡ M.name (memory_of self.old) }
    {
        advance(&mut self.memory, &mut self.table, index)
    }

    /// The index of worker `w`, counted from 0, where it is in a call; else why its turn is refused: `NoSuchWorker` or `WorkerIdle`.
    pub fn busy_worker(&self, w: u8) -> Result<WorkerIndex, Refusal>
        ensures answer { result_err result ≡ turn_refused (state_of M.cells self.now) w }
        ensures index { IfOk result (λ i. i.index ≡ w) }
    {
        let index = self.worker_index(w)?;
        if self.table.worker(index).is_idle() {
            return Err(Refusal::WorkerIdle);
        }
        Ok(index)
    }

    /// One turn of worker `w`, counted from 0: at most one touch of a shared cell. It answers `None` while the call is still
    /// running, or the answer that finished it. Refused with `NoSuchWorker` or `WorkerIdle`, and then nothing changes.
    pub fn turn(&mut self, w: u8) -> Result<Option<Answer>, Refusal>
        ensures answer { result ≡ turn_answer (state_of M.cells self.old) w }
        ensures after { state_of M.cells self.new ≡ stepped (state_of M.cells self.old) (Turn w) }
        ensures spare { M.spare (memory_of self.new) ≡ M.spare (memory_of self.old) }
        ensures name { M.name (memory_of self.new) ≡ M.name (memory_of self.old) }
        ensures history { Extends (state_of M.cells self.old) (state_of M.cells self.new) (Turn w) (answered_or result) }
        ensures promise { PromiseKept (state_of M.cells self.old) (state_of M.cells self.new) (Turn w) (answered_or result) }
    {
        let index = self.busy_worker(w)?;
        Ok(self.advance(index))
    }
}
