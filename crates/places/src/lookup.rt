// What follows once a look, a bind or a check again has decided. Each moves the place, or answers.
ghost use Rattle.std.specs.Prelude.{◌≡◌};
ghost use Rattle.std.specs.declared.ops.ControlFlow.TheVariants.{Continue};
ghost use Rattle.places.specs.declared.place.Purpose.TheVariants.{Look as AsLook};
ghost use Rattle.places.specs.Flows.{flow_of};
ghost use Rattle.places.specs.Rules.{look_found, bound_row, checked, alive, absent, looked, owned, lost_to, first};

use crate::mark::Mark;
use crate::place::{Bound, Change, Found, Hand, Look, Op, Place, Purpose, Side, Stage};
use codes::Answer;
use layout::names::Field;

impl Bound {
    // An edge row is the edge if its two rows are the bound ones.
    fn found(self, row: u32, hand: Hand) -> Found
        ensures { result ≡ bound_row self row hand }
    {
        if hand.source == self.source && hand.target == self.target {
            Ok(row)
        } else {
            Err(row)
        }
    }
}

impl Place {
    // On to another place.
    pub(crate) fn go(&mut self, place: Place) -> Option<Answer>
        ensures { flow_of self.new result ≡ Continue place }
    {
        *self = place;
        None
    }

    /// On to settling a field.
    pub fn settle(&mut self, purpose: Purpose) -> Option<Answer>
        ensures { flow_of self.new result ≡ first purpose }
    {
        self.go(Place::Settle {
            stage: Stage::First,
            purpose,
        })
    }

    // On to settling a field of a row that is looked at.
    pub(crate) fn look_at(&mut self, field: Field, look: Look, row: u32) -> Option<Answer>
        ensures { flow_of self.new result ≡ first (AsLook field look row) }
    {
        self.settle(Purpose::Look { field, look, row })
    }

    // After the look at an edge: only a remove that found it does not check again.
    fn look_found(&mut self, op: Op, bound: Bound, found: Found) -> Option<Answer>
        ensures { flow_of self.new result ≡ look_found op bound found }
    {
        match (op, found) {
            (Op::Remove, Ok(row)) => self.go(Place::End {
                change: Change::Edge(bound),
                row,
            }),
            _ => self.settle(Purpose::CheckAgain {
                side: Side::Source,
                op,
                bound,
                found,
            }),
        }
    }

    /// What follows when both rows of a bound edge were checked again: the answer, or on to the link.
    pub fn checked(&mut self, op: Op, bound: Bound, found: Found) -> Option<Answer>
        ensures { flow_of self.new result ≡ checked op bound found }
    {
        match (op, found) {
            (Op::Add, Err(head)) => self.go(Place::Link {
                change: Change::Edge(bound),
                head,
            }),
            (Op::Add, Ok(_)) => Some(Answer::EdgeAlready),
            (Op::Contains, Ok(_)) => Some(Answer::EdgePresent),
            (Op::Remove, Ok(row)) => self.go(Place::End {
                change: Change::Edge(bound),
                row,
            }),
            (_, Err(_)) => Some(Answer::EdgeAbsent),
        }
    }

    // The look met a row that has not ended.
    fn alive(&mut self, look: Look, row: u32, hand: Hand) -> Option<Answer>
        ensures { flow_of self.new result ≡ alive look row hand }
    {
        match look {
            Look::Vertex(Op::Add, _) => Some(Answer::VertexAlready),
            Look::Vertex(Op::Remove, i) => self.go(Place::End {
                change: Change::Vertex(i),
                row,
            }),
            Look::Vertex(Op::Contains, _) => Some(Answer::VertexPresent),
            Look::Source(op, pair) => self.go(Place::Head(Look::Target {
                op,
                pair,
                source: row,
            })),
            Look::Target { op, pair, source } => self.settle(Purpose::SourceAgain {
                op,
                bound: Bound {
                    pair,
                    source,
                    target: row,
                },
            }),
            Look::Edge(op, bound) => self.look_found(op, bound, bound.found(row, hand)),
        }
    }

    /// What follows when a look finds no row, or one that has ended.
    pub fn absent(&mut self, look: Look, head: u32) -> Option<Answer>
        ensures { flow_of self.new result ≡ absent look head }
    {
        match look {
            Look::Vertex(Op::Add, i) => self.go(Place::Link {
                change: Change::Vertex(i),
                head,
            }),
            Look::Edge(op, bound) => self.look_found(op, bound, Err(head)),
            _ => Some(Answer::VertexAbsent),
        }
    }

    /// What follows when the del of a row that is looked at is settled.
    pub fn looked(&mut self, look: Look, row: u32, hand: Hand, del: Mark) -> Option<Answer>
        ensures { flow_of self.new result ≡ looked look row hand del }
    {
        if del.is_ended() {
            self.absent(look, row)
        } else {
            self.alive(look, row, hand)
        }
    }

    /// What follows when the worker's own change bears its stamp.
    pub fn owned(&mut self, change: Change, field: Field, row: u32, mark: Mark) -> Option<Answer>
        ensures { flow_of self.new result ≡ owned field change row mark }
    {
        match (change, field) {
            (Change::Vertex(_), Field::Ins) => Some(Answer::VertexAdded),
            (Change::Vertex(_), Field::Del) => Some(Answer::VertexRemoved),
            (Change::Edge(bound), _) => self.settle(Purpose::Compare {
                side: Side::Source,
                bound,
                field,
                row,
                // No stamp counts as 0, as in the contract's `owned`.
                stamp: mark.stamp().unwrap_or(0),
            }),
        }
    }

    /// What follows when another worker's end of the row bears its stamp.
    pub fn lost_to(&mut self, change: Change, row: u32) -> Option<Answer>
        ensures { flow_of self.new result ≡ lost_to change row }
    {
        match change {
            Change::Vertex(_) => Some(Answer::VertexAbsent),
            Change::Edge(bound) => self.settle(Purpose::CheckAgain {
                side: Side::Source,
                op: Op::Remove,
                bound,
                found: Err(row),
            }),
        }
    }
}
