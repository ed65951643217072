// Walking a head: down its rows to the first with ins at most t.
ghost use Rattle.std.specs.Prelude.{◌≡◌};
ghost use Rattle.places.specs.Moved.{next_from};
ghost use Rattle.places.specs.Walks.{walked_head, walked_ins, walked_del, first_job};

use crate::mark::Mark;
use crate::place::{Hand, Job, Place, Purpose, Survey, TurnOutcome, Walk};
use layout::names::Field;
use layout::rows::NO_ROW;

impl Survey {
    /// What is walked first, after the raise.
    pub fn first(self) -> Job
        ensures { result ≡ first_job self }
    {
        match self {
            Survey::Snapshot => Job::Key(0),
            Survey::Reach(i) => Job::Start(i),
        }
    }
}

impl Place {
    /// What follows when a walk has read its head: no row ends the walk.
    pub fn head_read(&mut self, walk: Walk, row: u32) -> TurnOutcome
        ensures { next_from self.new result ≡ walked_head walk row }
    {
        match row {
            NO_ROW => TurnOutcome::Walked(walk, NO_ROW),
            _ => TurnOutcome::Moved(self.settle(Purpose::Walk {
                field: Field::Ins,
                walk,
                row,
            })),
        }
    }

    /// What follows when the ins of a walked row is settled: a row above t leads to the older one.
    pub fn ins_read(&mut self, walk: Walk, row: u32, hand: Hand, ins: Mark) -> TurnOutcome
        ensures { next_from self.new result ≡ walked_ins walk row hand ins }
    {
        match ins {
            Mark::Stamp(n) if n <= hand.t => {
                TurnOutcome::Moved(self.settle(Purpose::Walk {
                    field: Field::Del,
                    walk,
                    row,
                }))
            }
            Mark::NotEnded => TurnOutcome::Moved(self.settle(Purpose::Walk {
                field: Field::Del,
                walk,
                row,
            })),
            _ if hand.older == NO_ROW => TurnOutcome::Walked(walk, NO_ROW),
            _ => TurnOutcome::Moved(self.go(Place::WalkOlder {
                walk,
                row: hand.older,
            })),
        }
    }

    /// What follows when the del of a walked row is settled: the row is visible if it has not ended at t.
    pub fn del_read(&self, walk: Walk, row: u32, hand: Hand, del: Mark) -> TurnOutcome
        ensures { next_from self.now result ≡ walked_del walk row hand del }
    {
        match del {
            Mark::Stamp(n) if n <= hand.t => TurnOutcome::Walked(walk, NO_ROW),
            _ => TurnOutcome::Walked(walk, row),
        }
    }
}
