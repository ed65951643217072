// Replies to the lines of a text while nothing is open.
ghost use Rattle.std.specs.Prelude.{◌≡◌, ◌≤◌, length, IfSome};
ghost use Rattle.frames.specs.Replies.{reply_line};
ghost use Rattle.stepper.specs.Lent.{Ready};
ghost use Rattle.session.specs.Sessions.{SessionState.Shut as Waiting};
ghost use Rattle.session.specs.Answers.{Opens, Replies};
ghost use Rattle.session.specs.Served.{RepliesInto};
ghost use Rattle.replay.specs.Replayed.{opened_or, Until};

use crate::feed::first;
use cells::CellMemory;
use codes::Refusal;
use frames::{Code, Frame, Reply, put_reply};
use layout::opening::Opening;
use layout::sizes::Sizes;
use stepper::lent::clear;

// The bytes of a reply line of two bytes, with its line feed. While nothing is open there is no longer one.
const SHORT: usize = 5;

// Makes the memory that of an empty graph, and says of which sizes; a refusal leaves it as it was.
fn open<M: CellMemory>(memory: &mut M, opening: Opening) -> (Code, Option<Sizes>)
    ensures opens { Opens opening (Waiting (M.cells memory.old)) (reply_line (Reply.ToOpen result.0)) (opened_or (M.cells memory.new) result.1) }
    ensures ready { IfSome result.1 (λ z. Ready (M.cells memory.new) z) }
    ensures spare { M.spare memory.new ≡ M.spare memory.old }
    ensures name { M.name memory.new ≡ M.name memory.old }
{
    let sizes = match Sizes::try_from(opening) {
        Ok(sizes) => sizes,
        Err(refusal) => return (Err(refusal), None),
    };
    match clear(memory, sizes) {
        Ok(()) => (Ok(None), Some(sizes)),
        Err(refusal) => (Err(refusal), None),
    }
}

// The reply to a frame while nothing is open, and the sizes of a run that it opens.
fn reply_closed<M: CellMemory>(
    memory: &mut M,
    frame: Result<Frame, Refusal>,
) -> (Reply, Option<Sizes>)
    ensures replies { Replies (Waiting (M.cells memory.old)) frame (reply_line result.0) (opened_or (M.cells memory.new) result.1) }
    ensures ready { IfSome result.1 (λ z. Ready (M.cells memory.new) z) }
    ensures spare { M.spare memory.new ≡ M.spare memory.old }
    ensures name { M.name memory.new ≡ M.name memory.old }
{
    match frame {
        Ok(Frame::Open(opening)) => {
            let (code, opened) = open(memory, opening);
            (Reply::ToOpen(code), opened)
        }
        Ok(Frame::Begin(_) | Frame::Turns { .. } | Frame::Take { .. }) | Err(_) => {
            (Reply::NoFrame, None)
        }
    }
}

// Writes the reply to a frame while nothing is open: where it ends, and the sizes of a run that the frame opens. Where it does
// not fit, the frame is not carried out.
fn answer_closed<M: CellMemory>(
    memory: &mut M,
    frame: Result<Frame, Refusal>,
    out: &mut [u8],
    at: usize,
) -> (Option<usize>, Option<Sizes>)
    requires { at ≤ length out.old }
    ensures replies { RepliesInto (Waiting (M.cells memory.old)) frame at out.old out.new result.0 (opened_or (M.cells memory.new) result.1) }
    ensures ready { IfSome result.1 (λ z. Ready (M.cells memory.new) z) }
    ensures spare { M.spare memory.new ≡ M.spare memory.old }
    ensures name { M.name memory.new ≡ M.name memory.old }
{
    if out.len() - at < SHORT {
        return (None, None);
    }
    let (reply, opened) = reply_closed(memory, frame);
    (put_reply(out, at, reply), opened)
}

// Replies to lines from the start of the area on, up to one that opens a run: where the replies end, the sizes of the run, and
// what stands behind its line. With no sizes the replay is over.
pub(crate) fn replay_closed<'t, M: CellMemory>(
    memory: &mut M,
    text: &'t [u8],
    out: &mut [u8],
) -> (usize, Option<Sizes>, &'t [u8])
    ensures until { Until (M.cells memory.old) text.now out.old out.new result.0 result.2.now (M.cells memory.new) result.1 }
    ensures within { result.0 ≤ length out.new }
    ensures ready { IfSome result.1 (λ z. Ready (M.cells memory.new) z) }
    ensures spare { M.spare memory.new ≡ M.spare memory.old }
    ensures name { M.name memory.new ≡ M.name memory.old }
{
    let mut rest = text;
    let mut n = 0;
    while !rest.is_empty() {
        let (frame, behind) = first(rest);
        let (end, opened) = answer_closed(memory, frame, out, n);
        // What was written so far is the answer, so no `?`.
        let Some(end) = end else {
            return (n, None, rest);
        };
        if opened.is_some() {
            return (end, opened, behind);
        }
        n = end;
        rest = behind;
    }
    (n, None, rest)
}
