// Handing pages out with tickets, and taking them back.
ghost use Rattle.std.specs.Prelude.{◌≡◌, ◌+◌, ◌^◌, ◌<◌, ◌≤◌, IfOk, length, take, drop};
ghost use Rattle.std.specs.Result.{result_err};
ghost use Rattle.stepper.specs.Runs.{memory_of, state_of};
ghost use Rattle.machine.specs.History.{Extends};
ghost use Rattle.promise.specs.Promise.{PromiseKept};
ghost use Rattle.machine.specs.Pages.{page_of};
ghost use Rattle.machine.specs.Requests.{ticket_refused, unless_refused, taken_or, done_or, reply_of, stepped};
ghost use Rattle.machine.specs.declared.request.Request.TheVariants.{Take, Give};

use crate::page_cells::PageCells;
use crate::run::Run;
use crate::ticket::Ticket;
use cells::CellMemory;
use codes::Refusal;
use machine::request::TicketNumber;
use machine::worker::PageState;
use machine::worker_index::WorkerIndex;

// Copies cells from `start` on into all of `out`.
fn copy<M: CellMemory>(memory: &mut M, start: usize, out: &mut [u32])
    requires cells { start + length out.old ≤ length (M.cells memory.old) }
    requires fits { start + length out.old < 2 ^ 64 }
    ensures copied { out.new ≡ take (length out.old) (drop start (M.cells memory.old)) }
    ensures after { M.cells memory.new ≡ M.cells memory.old }
    ensures spare { M.spare memory.new ≡ M.spare memory.old }
    ensures name { M.name memory.new ≡ M.name memory.old }
{
    for k in 0..out.len() {
        out[k] = memory.read(start + k).unwrap_or(0);
    }
}

impl<M: CellMemory> Run<M> {
    // The worker whose page is out with a ticket that is good.
    fn page_out(&self, number: TicketNumber) -> Result<WorkerIndex, Refusal>
        ensures answer { result_err result ≡ ticket_refused (state_of M.cells self.now) number }
        ensures index { IfOk result (λ i. (i.index ≡ number.worker) × (i.index < self.now.table.sizes.workers)) }
    {
        if number.worker as usize >= self.table.sizes.workers {
            return Err(Refusal::WrongTicket);
        }
        let index = WorkerIndex {
            index: number.worker,
        };
        let worker = self.table.worker(index);
        if worker.page != PageState::Out || worker.serial != number.serial {
            return Err(Refusal::WrongTicket);
        }
        Ok(index)
    }

    /// Hands out a ticket for the finished page of worker `w`, counted from 0; the page is then out, and does not change.
    /// Refused with the first of `NoSuchWorker`, `PageOut` and `NoFinishedPage` that holds, and then nothing changes.
    pub fn take(&mut self, w: u8) -> Result<Ticket, Refusal>
        ensures answer { taken_or result ≡ reply_of (state_of M.cells self.old) (Take w) }
        ensures after { state_of M.cells self.new ≡ stepped (state_of M.cells self.old) (Take w) }
        ensures spare { M.spare (memory_of self.new) ≡ M.spare (memory_of self.old) }
        ensures name { M.name (memory_of self.new) ≡ M.name (memory_of self.old) }
        ensures history { Extends (state_of M.cells self.old) (state_of M.cells self.new) (Take w) (taken_or result) }
        ensures promise { PromiseKept (state_of M.cells self.old) (state_of M.cells self.new) (Take w) (taken_or result) }
    {
        let index = self.worker_index(w)?;
        let worker = self.table.worker(index);
        worker.page_finished()?;
        let serial = worker.serial;
        self.table.set_page(index, PageState::Out);
        Ok(Ticket::new(TicketNumber { worker: w, serial }))
    }

    /// Takes a ticket back; its page is then not out, and still finished. Refused with `WrongTicket` where the page of its
    /// worker is not out, or the worker has finished another number of pages, and then nothing changes. The ticket is spent
    /// either way.
    pub fn give(&mut self, ticket: Ticket) -> Result<(), Refusal>
        ensures answer { done_or result ≡ reply_of (state_of M.cells self.old) (Give ticket) }
        ensures after { state_of M.cells self.new ≡ stepped (state_of M.cells self.old) (Give ticket) }
        ensures spare { M.spare (memory_of self.new) ≡ M.spare (memory_of self.old) }
        ensures name { M.name (memory_of self.new) ≡ M.name (memory_of self.old) }
        ensures history { Extends (state_of M.cells self.old) (state_of M.cells self.new) (Give ticket) (done_or result) }
        ensures promise { PromiseKept (state_of M.cells self.old) (state_of M.cells self.new) (Give ticket) (done_or result) }
    {
        let index = self.page_out(ticket.spend())?;
        self.table.set_page(index, PageState::Finished);
        Ok(())
    }

    /// The cells of the page that a ticket names. Refused with `WrongTicket`, as a give is. Nothing changes.
    pub fn page(&mut self, ticket: &Ticket) -> Result<PageCells, Refusal>
        ensures answer { result ≡ unless_refused (ticket_refused (state_of M.cells self.old) ticket.now) (page_of (state_of M.cells self.old) ticket.now.worker) }
        ensures after { state_of M.cells self.new ≡ state_of M.cells self.old }
        ensures spare { M.spare (memory_of self.new) ≡ M.spare (memory_of self.old) }
        ensures name { M.name (memory_of self.new) ≡ M.name (memory_of self.old) }
    {
        let index = self.page_out(ticket.number())?;
        let sizes = self.table.sizes;
        // A page has at most 4160 cells: fixed memory, no heap.
        let mut cells = [0; 4160];
        copy(
            &mut self.memory,
            sizes.page_start(index.index),
            &mut cells[..sizes.page_size()],
        );
        Ok(PageCells::new(sizes.keys, cells))
    }
}
