// What follows from a place and what its turn gave: the place moves, or the call answers.
ghost use Rattle.std.specs.Prelude.{◌≡◌};
ghost use Rattle.std.specs.declared.ops.ControlFlow.TheVariants.{Continue};
ghost use Rattle.places.specs.declared.place.Place.TheVariants.{Head as AtHead};
ghost use Rattle.places.specs.declared.place.Look.TheVariants.{Edge as AtEdge};
ghost use Rattle.places.specs.declared.place.Purpose.TheVariants.{Look as AsLook, Walk as AsWalk};
ghost use Rattle.places.specs.declared.place.TurnOutcome.TheVariants.{Moved as AsMoved};
ghost use Rattle.places.specs.Flows.{flow_of};
ghost use Rattle.places.specs.Moved.{next_from};
ghost use Rattle.places.specs.Nexts.{settle_on, settled, settling, link_done, next_of};
ghost use Rattle.places.specs.Rules.{edge_changed, end_done, lost_link, unless_ended, unless_below, checked_side, compared_side};

use crate::mark::{Mark, PENDING};
use crate::place::{
    Bound, Change, Found, Got, Hand, Look, Op, Place, Purpose, Side, Stage, TurnOutcome, Walk,
};
use codes::Answer;
use layout::names::Field;
use layout::rows::NO_ROW;

// The answer of a change of an edge.
fn edge_changed(field: Field) -> Answer
    ensures { result ≡ edge_changed field }
{
    match field {
        Field::Ins => Answer::EdgeAdded,
        Field::Del => Answer::EdgeRemoved,
    }
}

impl Place {
    // On to another turn of settling.
    fn settle_on(&mut self, stage: Stage, purpose: Purpose) -> TurnOutcome
        ensures { next_from self.new result ≡ settle_on stage purpose }
    {
        TurnOutcome::Moved(self.go(Place::Settle { stage, purpose }))
    }

    fn lost_link(&mut self, change: Change) -> Option<Answer>
        ensures { flow_of self.new result ≡ lost_link change }
    {
        match change {
            Change::Vertex(i) => self.go(Place::LostHead(i)),
            Change::Edge(bound) => self.go(Place::Head(Look::Source(Op::Add, bound.pair))),
        }
    }

    // After a link turn.
    fn link_done(&mut self, change: Change, spare: Option<u32>, done: bool) -> TurnOutcome
        ensures { next_from self.new result ≡ link_done change spare done }
    {
        match spare {
            None => TurnOutcome::Moved(Some(Answer::RowsSpent)),
            Some(row) if done => TurnOutcome::Linked(change, row),
            Some(_) => TurnOutcome::Moved(self.lost_link(change)),
        }
    }

    // After the swap of a del.
    fn end_done(&mut self, change: Change, row: u32, done: bool) -> Option<Answer>
        ensures { flow_of self.new result ≡ end_done done change row }
    {
        if done {
            self.settle(Purpose::Own {
                field: Field::Del,
                change,
                row,
            })
        } else {
            self.settle(Purpose::LostDel { change, row })
        }
    }

    // The source's del is settled once more, after binding.
    fn bound_again(&mut self, op: Op, bound: Bound, del: Mark) -> Option<Answer>
        ensures { flow_of self.new result ≡ unless_ended del (Continue (AtHead (AtEdge op bound))) }
    {
        match del {
            Mark::NotEnded => self.go(Place::Head(Look::Edge(op, bound))),
            Mark::Pending | Mark::Stamp(_) => Some(Answer::VertexAbsent),
        }
    }

    // The del of one end is settled once more, after the look at the edge.
    fn checked_again(
        &mut self,
        side: Side,
        op: Op,
        bound: Bound,
        found: Found,
        del: Mark,
    ) -> Option<Answer>
        ensures { flow_of self.new result ≡ unless_ended del (checked_side side op bound found) }
    {
        match del {
            Mark::NotEnded if side == Side::Source => self.settle(Purpose::CheckAgain {
                side: Side::Target,
                op,
                bound,
                found,
            }),
            Mark::NotEnded => self.checked(op, bound, found),
            Mark::Pending | Mark::Stamp(_) => Some(Answer::VertexAbsent),
        }
    }

    // The del of one end is settled, and compared with the stamp of the call's own change.
    fn compared(
        &mut self,
        side: Side,
        bound: Bound,
        field: Field,
        row: u32,
        stamp: u32,
        del: Mark,
    ) -> Option<Answer>
        ensures { flow_of self.new result ≡ unless_below stamp del (compared_side side bound field row stamp) }
    {
        match del {
            Mark::Stamp(n) if n < stamp => Some(Answer::VertexAbsent),
            _ if side == Side::Source => self.settle(Purpose::Compare {
                side: Side::Target,
                bound,
                field,
                row,
                stamp,
            }),
            _ => Some(edge_changed(field)),
        }
    }

    // A walk's field is settled: the ins of a row, or its del.
    fn walk_settled(
        &mut self,
        field: Field,
        walk: Walk,
        row: u32,
        hand: Hand,
        mark: Mark,
    ) -> TurnOutcome
        ensures { next_from self.new result ≡ settled (AsWalk field walk row) hand mark }
    {
        match field {
            Field::Ins => self.ins_read(walk, row, hand, mark),
            Field::Del => self.del_read(walk, row, hand, mark),
        }
    }

    // A look's field is settled: the ins of a row leads to its del.
    fn look_settled(
        &mut self,
        field: Field,
        look: Look,
        row: u32,
        hand: Hand,
        mark: Mark,
    ) -> Option<Answer>
        ensures { next_from self.new (AsMoved result) ≡ settled (AsLook field look row) hand mark }
    {
        match field {
            Field::Ins => self.look_at(Field::Del, look, row),
            Field::Del => self.looked(look, row, hand, mark),
        }
    }

    // The field is settled at a number.
    fn settled(&mut self, purpose: Purpose, hand: Hand, mark: Mark) -> TurnOutcome
        ensures { next_from self.new result ≡ settled purpose hand mark }
    {
        TurnOutcome::Moved(match purpose {
            Purpose::Walk { field, walk, row } => {
                return self.walk_settled(field, walk, row, hand, mark);
            }
            Purpose::Look { field, look, row } => self.look_settled(field, look, row, hand, mark),
            Purpose::Own { field, change, row } => self.owned(change, field, row, mark),
            Purpose::LostDel { change, row } => self.lost_to(change, row),
            Purpose::WinnerIns { .. } => Some(Answer::VertexAlready),
            Purpose::SourceAgain { op, bound } => self.bound_again(op, bound, mark),
            Purpose::CheckAgain {
                side,
                op,
                bound,
                found,
            } => self.checked_again(side, op, bound, found, mark),
            Purpose::Compare {
                side,
                bound,
                field,
                row,
                stamp,
            } => self.compared(side, bound, field, row, stamp, mark),
        })
    }

    // A turn of settling gave a number: where the field is pending, three turns more.
    fn settling(&mut self, stage: Stage, purpose: Purpose, hand: Hand, number: u32) -> TurnOutcome
        ensures { next_from self.new result ≡ settling stage purpose hand number }
    {
        match (stage, number) {
            (Stage::First, PENDING) => self.settle_on(Stage::Clock, purpose),
            (Stage::Clock, stamp) => self.settle_on(Stage::Swap(stamp), purpose),
            (Stage::Swap(_), _) => self.settle_on(Stage::Reread, purpose),
            (Stage::First | Stage::Reread, _) => self.settled(purpose, hand, number.into()),
        }
    }

    /// Moves on by what the turn gave, and says what is left to do. A worker that answers has no place: the caller makes it idle.
    pub fn next(&mut self, hand: Hand, got: Got) -> TurnOutcome
        ensures { next_from self.new result ≡ next_of self.old hand got }
    {
        // A read always gives a number; where nothing was done it counts as 0, as in `next_of`.
        match (*self, got.unwrap_or(0)) {
            (Place::Idle, _) => TurnOutcome::Moved(None),
            (Place::Head(look), NO_ROW) => TurnOutcome::Moved(self.absent(look, NO_ROW)),
            (Place::Head(look), row) => TurnOutcome::Moved(self.look_at(Field::Ins, look, row)),
            (Place::Settle { stage, purpose }, number) => {
                self.settling(stage, purpose, hand, number)
            }
            (Place::Link { change, .. }, _) => self.link_done(change, hand.spare, got.is_some()),
            (Place::End { change, row }, _) => TurnOutcome::Moved(self.end_done(
                change,
                row,
                got.is_some(),
            )),
            (Place::LostHead(key), row) => TurnOutcome::Moved(self.settle(Purpose::WinnerIns {
                key,
                row,
            })),
            (Place::Raise(survey), _) => match got {
                Some(t) => TurnOutcome::Raised(survey, t),
                None => TurnOutcome::Moved(Some(Answer::ClockSpent)),
            },
            (Place::WalkHead(walk), row) => self.head_read(walk, row),
            (Place::WalkOlder { walk, row }, number) => {
                self.ins_read(walk, row, hand, number.into())
            }
        }
    }
}
