// The records of all workers beside the sizes of the run.
ghost use Rattle.std.specs.Prelude.{◌≡◌, ◌<◌, length, slice_index_or, slice_set};
ghost use Rattle.std.specs.Borrow.{sem};
ghost use Rattle.machine.specs.Lending.{LendsRecord};
ghost use Rattle.machine.specs.Requests.{begun};
ghost use Rattle.machine.specs.Workers.{nobody, fresh_table, CanCount, after_step, follows};

use crate::worker::{PageState, Step, Worker};
use crate::worker_index::WorkerIndex;
use layout::sizes::Sizes;
use places::place::{Call, Got, Hand};

/// The records of the workers, of which a run uses as many as its sizes say. Eight in fixed memory, with no heap.
#[derive(Clone, Copy, PartialEq, Eq, Debug)]
pub struct Table {
    pub sizes: Sizes,
    pub workers: [Worker; 8],
}

// Lends one record for change.
fn lend(workers: &mut [Worker], i: usize) -> &mut Worker
    requires { i < length workers.old }
    ensures* writes_back { sem 𝓛 (LendsRecord workers.entry i result) }
    ensures value { result.now ≡ slice_index_or workers.old i nobody }
{
    &mut workers[i]
}

impl Table {
    /// The records at an opening: every worker is idle, with no row linked and no page.
    pub fn fresh(sizes: Sizes) -> Table
        ensures { result ≡ record { sizes = sizes; workers = fresh_table } }
    {
        Table {
            sizes,
            workers: [Worker::fresh(); 8],
        }
    }

    /// The record of a worker.
    pub fn worker(&self, index: WorkerIndex) -> &Worker
        ensures { result.now ≡ slice_index_or self.now.workers index.index nobody }
    {
        &self.workers[index.index as usize]
    }

    /// A worker begins a call.
    pub fn begin(&mut self, index: WorkerIndex, call: Call)
        ensures sizes { self.new.sizes ≡ self.old.sizes }
        ensures workers { self.new.workers ≡ slice_set self.old.workers index.index (begun (slice_index_or self.old.workers index.index nobody) call) }
    {
        lend(&mut self.workers, index.index as usize).begin(call);
    }

    /// A worker's page is handed out, or given back.
    pub fn set_page(&mut self, index: WorkerIndex, page: PageState)
        ensures sizes { self.new.sizes ≡ self.old.sizes }
        ensures workers { self.new.workers ≡ slice_set self.old.workers index.index (record (slice_index_or self.old.workers index.index nobody) { page = page }) }
    {
        lend(&mut self.workers, index.index as usize).page = page;
    }

    /// What a turn makes of a worker's record, from what the worker had at hand and what its touch gave.
    pub fn follow(&mut self, index: WorkerIndex, hand: Hand, got: Got) -> Step
        requires { CanCount (slice_index_or self.old.workers index.index nobody) }
        ensures sizes { self.new.sizes ≡ self.old.sizes }
        ensures workers { self.new.workers ≡ slice_set self.old.workers index.index (follows self.old.sizes.keys (slice_index_or self.old.workers index.index nobody) hand got).worker }
        ensures step { after_step (follows self.old.sizes.keys (slice_index_or self.old.workers index.index nobody) hand got).worker result ≡ follows self.old.sizes.keys (slice_index_or self.old.workers index.index nobody) hand got }
    {
        let sizes = self.sizes;
        lend(&mut self.workers, index.index as usize).follow(sizes, hand, got)
    }
}
