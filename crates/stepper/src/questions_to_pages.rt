// Questions to the page that a ticket names.
ghost use Rattle.std.specs.Prelude.{◌≡◌, length};
ghost use Rattle.questions.specs.Best.{AnsweredOr};
ghost use Rattle.questions.specs.Order.{OrderedOr};
ghost use Rattle.questions.specs.Unanswered.{Refuses};
ghost use Rattle.stepper.specs.Asked.{page_graph, unanswered_at};
ghost use Rattle.stepper.specs.Runs.{memory_of, state_of};

use crate::run::Run;
use crate::ticket::Ticket;
use cells::CellMemory;
use questions::{Measure, Page, Unanswered};

impl<M: CellMemory> Run<M> {
    /// Writes the keys that walks from `start` reach on the page that a ticket names into `out`, breadth first, neighbours
    /// rising, and answers how many they are. Not answered, with the first of these that holds: `WrongTicket`, `KeyOutside`
    /// where `start` is not a key, `AreaTooSmall` where `out` has fewer entries than there are keys, `Absent` where the page
    /// does not show `start`; then `out` stays. Nothing of the run changes.
    pub fn order(
        &mut self,
        ticket: &Ticket,
        start: usize,
        out: &mut [u8],
    ) -> Result<usize, Unanswered>
        ensures answer { Refuses (unanswered_at (state_of M.cells self.old) ticket.now start (length out.old)) result }
        ensures listed { OrderedOr result (page_graph (state_of M.cells self.old) ticket.now.worker) start out.old out.new }
        ensures after { state_of M.cells self.new ≡ state_of M.cells self.old }
        ensures spare { M.spare (memory_of self.new) ≡ M.spare (memory_of self.old) }
        ensures name { M.name (memory_of self.new) ≡ M.name (memory_of self.old) }
    {
        let cells = self.page(ticket)?;
        questions::order(&Page::new(cells.as_slice(), cells.keys()), start, out)
    }

    /// Writes into entry k of `out`, for each key k, the best value over all walks from `start` to k on the page that a ticket
    /// names, or none where there is no walk. Not answered as `order` is not, and then `out` stays. Nothing of the run changes.
    pub fn best<Q: Measure, T: From<Option<u32>> + Copy>(
        &mut self,
        ticket: &Ticket,
        start: usize,
        out: &mut [T],
    ) -> Result<(), Unanswered>
        ensures answer { Refuses (unanswered_at (state_of M.cells self.old) ticket.now start (length out.old)) result }
        ensures values { AnsweredOr result T.from_gives Q.scale (page_graph (state_of M.cells self.old) ticket.now.worker) (state_of M.cells self.old).sizes.keys start out.old out.new }
        ensures after { state_of M.cells self.new ≡ state_of M.cells self.old }
        ensures spare { M.spare (memory_of self.new) ≡ M.spare (memory_of self.old) }
        ensures name { M.name (memory_of self.new) ≡ M.name (memory_of self.old) }
    {
        let cells = self.page(ticket)?;
        questions::best::<Page<'_>, Q, T>(&Page::new(cells.as_slice(), cells.keys()), start, out)
    }
}
