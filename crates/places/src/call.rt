// Which call a begin asks for, and where it starts.
ghost use Rattle.std.specs.Prelude.{◌≡◌, cond, nat_lt, Ok, Err};
ghost use Rattle.codes.specs.declared.refusal.Refusal.TheVariants.{KeyOutside};
ghost use Rattle.places.specs.declared.place.Call.TheVariants.{Vertex};
ghost use Rattle.places.specs.Calls.{edge_call, call_of, place_first};

use crate::place::{Call, Look, Op, Pair, Place, Survey};
use codes::Refusal;

/// What a begin names, as the frame has it: the worker, the call by its number 1 to 8, the two keys and the weight. Any numbers may
/// stand here: the call's becomes a `Call` in `call_of`, once, which refuses those that do not fit.
#[derive(Clone, Copy, PartialEq, Eq, Debug)]
pub struct Begin {
    pub worker: u8,
    pub call: u8,
    pub from: u8,
    pub to: u8,
    pub weight: u32,
}

impl Begin {
    // A call on the vertex of the first key.
    fn on_vertex(self, op: Op, keys: usize) -> Result<Call, Refusal>
        ensures { result ≡ cond (nat_lt self.from keys) (Ok (Vertex op self.from)) (Err KeyOutside) }
    {
        if self.from as usize >= keys {
            return Err(Refusal::KeyOutside);
        }
        Ok(Call::Vertex(op, self.from))
    }

    // A call on the edge between two keys; only an add uses the weight.
    fn on_edge(self, op: Op, keys: usize) -> Result<Call, Refusal>
        ensures { result ≡ edge_call keys op self }
    {
        let within = (self.from as usize) < keys && (self.to as usize) < keys;
        if !within || self.from == self.to {
            return Err(Refusal::KeyOutside);
        }
        if op == Op::Add && !(1..=1_000_000).contains(&self.weight) {
            return Err(Refusal::WeightOutside);
        }
        Ok(Call::Edge(
            op,
            Pair {
                from: self.from,
                to: self.to,
                weight: self.weight,
            },
        ))
    }

    /// The call in a run of `keys` keys, or the first of its refusals: `NoSuchCall` (not 1 to 8), `KeyOutside` (a used key is not below
    /// `keys`, or an edge call names one key twice), `WeightOutside` (an added edge's weight is not 1 to 1,000,000). Arguments that the
    /// call does not use are ignored.
    pub fn call_of(self, keys: usize) -> Result<Call, Refusal>
        ensures { result ≡ call_of keys self }
    {
        match self.call {
            1 => self.on_vertex(Op::Add, keys),
            2 => self.on_vertex(Op::Remove, keys),
            3 => self.on_vertex(Op::Contains, keys),
            4 => self.on_edge(Op::Add, keys),
            5 => self.on_edge(Op::Remove, keys),
            6 => self.on_edge(Op::Contains, keys),
            7 => Ok(Call::Survey(Survey::Snapshot)),
            8 if (self.from as usize) < keys => Ok(Call::Survey(Survey::Reach(self.from))),
            8 => Err(Refusal::KeyOutside),
            _ => Err(Refusal::NoSuchCall),
        }
    }
}

impl Call {
    /// The place of a call's first turn.
    pub fn first(self) -> Place
        ensures { result ≡ place_first self }
    {
        match self {
            Call::Vertex(op, i) => Place::Head(Look::Vertex(op, i)),
            Call::Edge(op, pair) => Place::Head(Look::Source(op, pair)),
            Call::Survey(survey) => Place::Raise(survey),
        }
    }
}
