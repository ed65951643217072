// The reply to a frame, written into an area.
ghost use Rattle.std.specs.Prelude.{◌≡◌, ◌≤◌, length, Ok};
ghost use Rattle.frames.specs.Replies.{fed};
ghost use Rattle.frames.specs.Areas.{PutWhole};
ghost use Rattle.frames.specs.declared.frame.Frame.TheVariants.{Open};
ghost use Rattle.machine.specs.Requests.{take_refused};
ghost use Rattle.stepper.specs.Runs.{state_of, memory_of as run_memory};
ghost use Rattle.session.specs.Sessions.{session_of, memory_of, SessionState.Running as Serving, SessionState.Shut as Waiting};
ghost use Rattle.session.specs.Answers.{page_or};
ghost use Rattle.session.specs.Served.{line_len, RepliesInto};

use crate::ask::{begin, open, reopen, shown, turns};
use crate::states::Session;
use cells::CellMemory;
use codes::Refusal;
use frames::{Frame, Reply, put_page, put_reply};
use layout::opening::Opening;
use stepper::run::Run;

/// A session after a frame, and where its reply line ends in the area; none where the line did not fit.
#[derive(Drop)]
pub struct Answered<M: CellMemory> {
    pub session: Session<M>,
    pub end: Option<usize>,
}

// The fewest bytes of a line that replies to a frame while a run is open, with its line feed. Only that of a page may be longer.
fn line_len(frame: Frame) -> usize
    ensures { result ≡ line_len frame }
{
    match frame {
        Frame::Turns { .. } => 7,
        _ => 5,
    }
}

// Writes the line of the page of a worker, or of the refusal to take it. The run is as it was.
fn show<M: CellMemory>(run: &mut Run<M>, worker: u8, out: &mut [u8], at: usize) -> Option<usize>
    requires { at ≤ length out.old }
    ensures line { PutWhole at (fed (page_or (take_refused (state_of M.cells run.old) worker) (state_of M.cells run.old) worker)) out.old out.new result }
    ensures after { state_of M.cells run.new ≡ state_of M.cells run.old }
    ensures spare { M.spare (run_memory run.new) ≡ M.spare (run_memory run.old) }
    ensures name { M.name (run_memory run.new) ≡ M.name (run_memory run.old) }
{
    match shown(run, worker) {
        Ok(page) => put_page(out, at, page.keys(), page.as_slice()),
        Err(refusal) => put_reply(out, at, Reply::ToTake(refusal)),
    }
}

// Does what a frame asks of an open run, where its reply fits.
fn obey<M: CellMemory>(run: &mut Run<M>, frame: Frame, out: &mut [u8], at: usize) -> Option<usize>
    requires { at ≤ length out.old }
    ensures replies { RepliesInto (Serving (state_of M.cells run.old)) (Ok frame) at out.old out.new result (Serving (state_of M.cells run.new)) }
    ensures spare { M.spare (run_memory run.new) ≡ M.spare (run_memory run.old) }
    ensures name { M.name (run_memory run.new) ≡ M.name (run_memory run.old) }
{
    if out.len() - at < line_len(frame) {
        return None;
    }
    match frame {
        Frame::Turns { worker, count } => put_reply(out, at, turns(run, worker, count)),
        Frame::Begin(call) => put_reply(out, at, Reply::ToBegin(begin(run, call))),
        Frame::Open(opening) => put_reply(out, at, Reply::ToOpen(reopen(run, opening))),
        Frame::Take { worker } => show(run, worker, out, at),
    }
}

/// Replies to a frame, or to a line that is none, while a run is open. The reply line is written into `out` from `at` on, with
/// its line feed, and the result is where it ends. Where it does not fit whole, the result is none: nothing is written, and the
/// frame is not carried out.
pub fn answer_open<M: CellMemory>(
    run: &mut Run<M>,
    frame: Result<Frame, Refusal>,
    out: &mut [u8],
    at: usize,
) -> Option<usize>
    requires { at ≤ length out.old }
    ensures replies { RepliesInto (Serving (state_of M.cells run.old)) frame at out.old out.new result (Serving (state_of M.cells run.new)) }
    ensures spare { M.spare (run_memory run.new) ≡ M.spare (run_memory run.old) }
    ensures name { M.name (run_memory run.new) ≡ M.name (run_memory run.old) }
{
    match frame {
        Ok(frame) => obey(run, frame, out, at),
        Err(_) => put_reply(out, at, Reply::NoFrame),
    }
}

// Opens, where the reply fits.
fn begin_run<M: CellMemory>(memory: M, opening: Opening, out: &mut [u8], at: usize) -> Answered<M>
    requires { at ≤ length out.old }
    ensures replies { RepliesInto (Waiting (M.cells memory)) (Ok (Open opening)) at out.old out.new result.end (session_of M.cells result.session) }
    ensures spare { M.spare (memory_of result.session) ≡ M.spare memory }
    ensures name { M.name (memory_of result.session) ≡ M.name memory }
{
    if out.len() - at < line_len(Frame::Open(opening)) {
        return Answered {
            session: Session::Closed(memory),
            end: None,
        };
    }
    let opened = open(memory, opening);
    Answered {
        session: opened.session,
        end: put_reply(out, at, Reply::ToOpen(opened.code)),
    }
}

// Replies to a frame while nothing is open: only an opening is one.
fn answer_closed<M: CellMemory>(memory: M, frame: Frame, out: &mut [u8], at: usize) -> Answered<M>
    requires { at ≤ length out.old }
    ensures replies { RepliesInto (Waiting (M.cells memory)) (Ok frame) at out.old out.new result.end (session_of M.cells result.session) }
    ensures spare { M.spare (memory_of result.session) ≡ M.spare memory }
    ensures name { M.name (memory_of result.session) ≡ M.name memory }
{
    match frame {
        Frame::Open(opening) => begin_run(memory, opening, out, at),
        _ => Answered {
            session: Session::Closed(memory),
            end: put_reply(out, at, Reply::NoFrame),
        },
    }
}

// Replies to a frame, or to a line that is none, while nothing is open.
fn answer_waiting<M: CellMemory>(
    memory: M,
    frame: Result<Frame, Refusal>,
    out: &mut [u8],
    at: usize,
) -> Answered<M>
    requires { at ≤ length out.old }
    ensures replies { RepliesInto (Waiting (M.cells memory)) frame at out.old out.new result.end (session_of M.cells result.session) }
    ensures spare { M.spare (memory_of result.session) ≡ M.spare memory }
    ensures name { M.name (memory_of result.session) ≡ M.name memory }
{
    match frame {
        Ok(frame) => answer_closed(memory, frame, out, at),
        Err(_) => Answered {
            session: Session::Closed(memory),
            end: put_reply(out, at, Reply::NoFrame),
        },
    }
}

/// Replies to a frame, or to a line that is none, as `answer_open` does, whether or not a run is open. While nothing is open,
/// only an opening is a frame.
pub fn answer<M: CellMemory>(
    session: Session<M>,
    frame: Result<Frame, Refusal>,
    out: &mut [u8],
    at: usize,
) -> Answered<M>
    requires { at ≤ length out.old }
    ensures replies { RepliesInto (session_of M.cells session) frame at out.old out.new result.end (session_of M.cells result.session) }
    ensures spare { M.spare (memory_of result.session) ≡ M.spare (memory_of session) }
    ensures name { M.name (memory_of result.session) ≡ M.name (memory_of session) }
{
    match session {
        Session::Closed(memory) => answer_waiting(memory, frame, out, at),
        Session::Open(mut run) => {
            let end = answer_open(&mut run, frame, out, at);
            Answered {
                session: Session::Open(run),
                end,
            }
        }
    }
}
