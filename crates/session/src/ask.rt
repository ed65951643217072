// What a frame asks of a run, or of a memory on which nothing is open.
ghost use Rattle.std.specs.Prelude.{◌≡◌};
ghost use Rattle.std.specs.NonZero.{non_zero_u8_get};
ghost use Rattle.frames.specs.Replies.{reply_line};
ghost use Rattle.machine.specs.Requests.{unless_refused, take_refused};
ghost use Rattle.machine.specs.Pages.{page_of};
ghost use Rattle.stepper.specs.Runs.{state_of, memory_of as run_memory};
ghost use Rattle.session.specs.Sessions.{session_of, memory_of, SessionState.Running as Serving, SessionState.Shut as Waiting};
ghost use Rattle.session.specs.Answers.{Opens, Begins, Turns};

use crate::states::Session;
use cells::CellMemory;
use codes::Refusal;
use frames::{Code, Reply};
use layout::opening::Opening;
use layout::sizes::Sizes;
use places::call::Begin;
use std::num::NonZeroU8;
use stepper::page_cells::PageCells;
use stepper::run::Run;

// Begins a call; a refusal changes nothing.
pub(crate) fn begin<M: CellMemory>(run: &mut Run<M>, begin: Begin) -> Code
    ensures begins { Begins begin (state_of M.cells run.old) (reply_line (Reply.ToBegin result)) (Serving (state_of M.cells run.new)) }
    ensures spare { M.spare (run_memory run.new) ≡ M.spare (run_memory run.old) }
    ensures name { M.name (run_memory run.new) ≡ M.name (run_memory run.old) }
{
    run.begin(begin)?;
    Ok(None)
}

// Makes turns. A refused worker has used none, so a refusal has a count beside it and no `?` passes it on.
pub(crate) fn turns<M: CellMemory>(run: &mut Run<M>, worker: u8, count: NonZeroU8) -> Reply
    ensures turns { Turns worker (non_zero_u8_get count) (state_of M.cells run.old) (reply_line result) (Serving (state_of M.cells run.new)) }
    ensures spare { M.spare (run_memory run.new) ≡ M.spare (run_memory run.old) }
    ensures name { M.name (run_memory run.new) ≡ M.name (run_memory run.old) }
{
    match run.turns(worker, count) {
        Ok(several) => Reply::ToTurns(Ok(several.answer), several.used),
        Err(refusal) => Reply::ToTurns(Err(refusal), 0),
    }
}

// Opens anew; a refusal leaves the run that was open.
pub(crate) fn reopen<M: CellMemory>(run: &mut Run<M>, opening: Opening) -> Code
    ensures opens { Opens opening (Serving (state_of M.cells run.old)) (reply_line (Reply.ToOpen result)) (Serving (state_of M.cells run.new)) }
    ensures spare { M.spare (run_memory run.new) ≡ M.spare (run_memory run.old) }
    ensures name { M.name (run_memory run.new) ≡ M.name (run_memory run.old) }
{
    run.reopen(opening.try_into()?)?;
    Ok(None)
}

// A session, and how its opening went.
#[derive(Drop)]
pub(crate) struct Opened<M: CellMemory> {
    pub session: Session<M>,
    pub code: Code,
}

// Opens; a refusal gives the memory back as it was.
pub(crate) fn open<M: CellMemory>(memory: M, opening: Opening) -> Opened<M>
    ensures opens { Opens opening (Waiting (M.cells memory)) (reply_line (Reply.ToOpen result.code)) (session_of M.cells result.session) }
    ensures spare { M.spare (memory_of result.session) ≡ M.spare memory }
    ensures name { M.name (memory_of result.session) ≡ M.name memory }
{
    // The memory goes along with a refusal, so no `?`.
    let opened = match Sizes::try_from(opening) {
        Ok(sizes) => Run::open(memory, sizes),
        Err(refusal) => Err((memory, refusal)),
    };
    match opened {
        Ok(run) => Opened {
            session: Session::Open(run),
            code: Ok(None),
        },
        Err((memory, refusal)) => Opened {
            session: Session::Closed(memory),
            code: Err(refusal),
        },
    }
}

// Takes the page of a worker, copies its cells, and gives the page back.
pub(crate) fn shown<M: CellMemory>(run: &mut Run<M>, worker: u8) -> Result<PageCells, Refusal>
    ensures page { result ≡ unless_refused (take_refused (state_of M.cells run.old) worker) (page_of (state_of M.cells run.old) worker) }
    ensures after { state_of M.cells run.new ≡ state_of M.cells run.old }
    ensures spare { M.spare (run_memory run.new) ≡ M.spare (run_memory run.old) }
    ensures name { M.name (run_memory run.new) ≡ M.name (run_memory run.old) }
{
    let ticket = run.take(worker)?;
    let page = run.page(&ticket);
    // The ticket is good, so neither refuses.
    let _ = run.give(ticket);
    page
}
