// The right to put questions to one finished page.
ghost use Rattle.std.specs.Prelude.{◌≡◌};

use machine::request::TicketNumber;
use std::marker::Model;

/// A ticket for a worker's finished page, made by `Run::take` and owed back to `Run::give`. It is neither copied nor let go:
/// a ticket that ends without give, and one that is used once it was given, are errors of the check.
pub struct Ticket {
    number: TicketNumber,
}

impl Model for Ticket {
    ghost use Rattle.machine.specs.declared.request.TicketNumber.{TicketNumber};

    ghost Value = { TicketNumber };

    ghost view = { λ t. t.number };
}

impl Ticket {
    // A ticket that names a worker and how many pages it has finished.
    pub(crate) fn new(number: TicketNumber) -> Ticket
        ensures { result ≡ number }
    {
        Ticket { number }
    }

    // What it names.
    pub(crate) fn number(&self) -> TicketNumber
        ensures { result ≡ self.now }
    {
        self.number
    }

    // Takes the ticket back.
    pub(crate) fn spend(self) -> TicketNumber
        ensures { result ≡ self }
    {
        let Ticket { number } = self;
        number
    }
}
