// Beginning a call.
ghost use Rattle.std.specs.Prelude.{◌≡◌, Ok, Err, MatchResult};
ghost use Rattle.stepper.specs.Runs.{memory_of, state_of};
ghost use Rattle.machine.specs.Requests.{call_to_begin, state_begun, done_or};
ghost use Rattle.machine.specs.History.{Extends};
ghost use Rattle.promise.specs.Promise.{PromiseKept};
ghost use Rattle.machine.specs.declared.request.Request.TheVariants.{Begin as AsBegin};

use crate::run::Run;
use cells::CellMemory;
use codes::Refusal;
use machine::worker_index::WorkerIndex;
use places::call::Begin;
use places::place::Call;

impl<M: CellMemory> Run<M> {
    // The worker and the call that a begin begins, or the first refusal that holds.
    fn call_to_begin(&self, begin: Begin) -> Result<(WorkerIndex, Call), Refusal>
        ensures { MatchResult result (λ p. (p.0.index ≡ begin.worker) × (call_to_begin (state_of M.cells self.now) begin ≡ Ok p.1)) (λ e. call_to_begin (state_of M.cells self.now) begin ≡ Err e) }
    {
        let index = self.worker_index(begin.worker)?;
        let worker = self.table.worker(index);
        if !worker.is_idle() {
            return Err(Refusal::WorkerBusy);
        }
        let call = worker.page_free(begin.call_of(self.table.sizes.keys)?)?;
        Ok((index, call))
    }

    /// Begins a call of an idle worker. Refused with the first of `NoSuchWorker`, `WorkerBusy`, `NoSuchCall`, `KeyOutside`,
    /// `WeightOutside` and `PageOut` that holds, and then nothing changes. No cell changes.
    pub fn begin(&mut self, begin: Begin) -> Result<(), Refusal>
        ensures answer { done_or result ≡ done_or (call_to_begin (state_of M.cells self.old) begin) }
        ensures after { state_of M.cells self.new ≡ state_begun (state_of M.cells self.old) begin.worker (call_to_begin (state_of M.cells self.old) begin) }
        ensures spare { M.spare (memory_of self.new) ≡ M.spare (memory_of self.old) }
        ensures name { M.name (memory_of self.new) ≡ M.name (memory_of self.old) }
        ensures history { Extends (state_of M.cells self.old) (state_of M.cells self.new) (AsBegin begin) (done_or result) }
        ensures promise { PromiseKept (state_of M.cells self.old) (state_of M.cells self.new) (AsBegin begin) (done_or result) }
    {
        let (index, call) = self.call_to_begin(begin)?;
        self.table.begin(index, call);
        Ok(())
    }
}
