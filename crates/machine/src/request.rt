// What can be asked of a run, and what it replies.
use codes::{Answer, Refusal};
use places::call::Begin;

/// What a ticket names: a worker, counted from 0, and how many pages it had finished when its page was taken.
#[derive(Clone, Copy, PartialEq, Eq, Debug)]
pub struct TicketNumber {
    pub worker: u8,
    pub serial: u32,
}

/// One variant for each sort of request.
#[derive(Clone, Copy, PartialEq, Eq, Debug)]
pub enum Request {
    /// A worker begins a call.
    Begin(Begin),
    /// A turn of a worker.
    Turn(u8),
    /// The finished page of a worker is handed out.
    Take(u8),
    /// A page that was handed out is given back.
    Give(TicketNumber),
}

/// What a request is replied. None of these is an error of the run, so no `Result`.
#[derive(Clone, Copy, PartialEq, Eq, Debug)]
pub enum Reply {
    /// To a begin or a give that was accepted.
    Done,
    /// To a turn that did not answer.
    Running,
    /// To the turn that answered, and so finished its call.
    Answered(Answer),
    /// To a take: what the ticket names.
    Taken(TicketNumber),
    /// Nothing was changed.
    Refused(Refusal),
}
