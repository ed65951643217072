// What is kept of each worker beside the cells.
ghost use Rattle.std.specs.Prelude.{◌≡◌, Ok};
ghost use Rattle.std.specs.declared.ops.ControlFlow.TheVariants.{Break};
ghost use Rattle.places.specs.Flows.{flow_of};
ghost use Rattle.books.specs.Walked.{walked_of};
ghost use Rattle.machine.specs.Requests.{is_idle, page_free, begun, page_refused, unless_refused};
ghost use Rattle.machine.specs.Workers.{fresh, CanCount, linked_of, counted, arrived, arriving, after_step, served, follows};

use books::book::Book;
use books::walked::Entry;
use codes::{Answer, Refusal};
use layout::names::{Field, Kind};
use layout::sizes::Sizes;
use places::place::{Call, Got, Hand, Place, Purpose, Stage, TurnOutcome, Walk};
use std::ops::ControlFlow;

/// A worker's page: not finished, finished, or handed out with a ticket.
#[derive(Clone, Copy, PartialEq, Eq, Debug)]
pub enum PageState {
    Unfinished,
    Finished,
    Out,
}

/// What is kept of a worker: where it stands in its call, its page, how many pages it has finished (`serial`), how many vertex
/// rows and edge rows it has linked (`vlinked`, `elinked`), and the book of its snapshot or reach.
#[derive(Clone, Copy, PartialEq, Eq, Debug)]
pub struct Worker {
    pub place: Place,
    pub page: PageState,
    pub serial: u32,
    pub vlinked: u32,
    pub elinked: u32,
    pub book: Book,
}

/// What a turn gave beside the worker's own record: the answer, if it answered, and what goes into the page.
#[derive(Clone, Copy, PartialEq, Eq, Debug)]
pub struct Step {
    pub answer: Option<Answer>,
    pub entry: Entry,
}

impl Worker {
    /// Idle, with no page and no row linked.
    pub fn fresh() -> Worker
        ensures { result ≡ fresh }
    {
        Worker {
            place: Place::Idle,
            page: PageState::Unfinished,
            serial: 0,
            vlinked: 0,
            elinked: 0,
            book: Book::blank(0),
        }
    }

    /// Whether it is in no call.
    pub fn is_idle(&self) -> bool
        ensures { result ≡ is_idle self.now.place }
    {
        matches!(self.place, Place::Idle)
    }

    /// The call, unless it makes a page and the worker's page is out.
    pub fn page_free(&self, call: Call) -> Result<Call, Refusal>
        ensures { result ≡ page_free self.now.page (Ok call) }
    {
        match (self.page, call) {
            (PageState::Out, Call::Survey(_)) => Err(Refusal::PageOut),
            _ => Ok(call),
        }
    }

    /// Begins a call; a snapshot or reach makes its page unfinished.
    pub fn begin(&mut self, call: Call)
        ensures { self.new ≡ begun self.old call }
    {
        self.place = call.first();
        if let Call::Survey(_) = call {
            self.page = PageState::Unfinished;
        }
    }

    /// Refused where its page cannot be handed out: it is out already, or not finished.
    pub fn page_finished(&self) -> Result<(), Refusal>
        ensures { result ≡ unless_refused (page_refused self.now.page) tt }
    {
        match self.page {
            PageState::Out => Err(Refusal::PageOut),
            PageState::Unfinished => Err(Refusal::NoFinishedPage),
            PageState::Finished => Ok(()),
        }
    }

    /// How many rows of a kind it has linked.
    pub fn linked(&self, kind: Kind) -> u32
        ensures { result ≡ linked_of self.now kind }
    {
        match kind {
            Kind::Vertex => self.vlinked,
            Kind::Edge => self.elinked,
        }
    }

    // Counts a row that it linked.
    fn count(&mut self, kind: Kind)
        requires { CanCount self.old }
        ensures { self.new ≡ counted self.old kind }
    {
        match kind {
            Kind::Vertex => self.vlinked += 1,
            Kind::Edge => self.elinked += 1,
        }
    }

    // A worker that answers is idle. A page that is answered with 30 or 31 is finished.
    fn answer(&mut self, answer: Answer)
        requires { CanCount self.old }
        ensures { self.new ≡ arrived self.old (Break answer) }
    {
        self.place = Place::Idle;
        if let Answer::SnapshotTaken | Answer::ReachTaken = answer {
            self.page = PageState::Finished;
            self.serial += 1;
        }
    }

    // The place has moved, or the call answers.
    fn arrive(&mut self, answer: Option<Answer>) -> Step
        requires { CanCount self.old }
        ensures { after_step self.new result ≡ arriving self.old (flow_of self.old.place answer) }
    {
        if let Some(answer) = answer {
            self.answer(answer);
        }
        Step {
            answer,
            entry: Entry::Nothing,
        }
    }

    // A walk has come to its end: on to the next one, or the answer.
    fn walked(&mut self, walk: Walk, sizes: Sizes, row: u32, hand: Hand) -> Step
        requires { CanCount self.old }
        ensures { after_step self.new result ≡ served self.old (walked_of self.old.book walk sizes.keys row hand) }
    {
        let survey = walk.survey;
        let served = self.book.walked(walk, sizes, row, hand);
        let entry = served.entry;
        match served.flow {
            ControlFlow::Continue(job) => {
                self.place = Place::WalkHead(Walk { survey, job });
                Step {
                    answer: None,
                    entry,
                }
            }
            ControlFlow::Break(answer) => {
                self.answer(answer);
                Step {
                    answer: Some(answer),
                    entry,
                }
            }
        }
    }

    /// What a turn makes of the record, from what the worker had at hand and what its touch gave.
    pub fn follow(&mut self, sizes: Sizes, hand: Hand, got: Got) -> Step
        requires { CanCount self.old }
        ensures { after_step self.new result ≡ follows sizes.keys self.old hand got }
    {
        match self.place.next(hand, got) {
            TurnOutcome::Moved(answer) => self.arrive(answer),
            TurnOutcome::Linked(change, row) => {
                self.count(change.kind());
                self.place = Place::Settle {
                    stage: Stage::First,
                    purpose: Purpose::Own {
                        field: Field::Ins,
                        change,
                        row,
                    },
                };
                Step {
                    answer: None,
                    entry: Entry::Nothing,
                }
            }
            TurnOutcome::Raised(survey, t) => {
                self.book = Book::blank(t);
                self.place = Place::WalkHead(Walk {
                    survey,
                    job: survey.first(),
                });
                Step {
                    answer: None,
                    entry: Entry::Clear,
                }
            }
            TurnOutcome::Walked(walk, row) => self.walked(walk, sizes, row, hand),
        }
    }
}
