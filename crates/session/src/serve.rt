// A session over a reader and a writer.
ghost use Rattle.std.specs.Prelude.{◌≡◌, ◌+◌, ◌<◌, ◌≤◌, true, ◌∷◌, ◌++◌, length, take, IsSome, IfOk, IfErr};
ghost use Rattle.stepper.specs.Runs.{state_of};
ghost use Rattle.session.specs.Sessions.{session_in, SessionState.Running as Serving, SessionState.Shut as Waiting};
ghost use Rattle.session.specs.Texts.{feed_at};
ghost use Rattle.session.specs.Served.{Written};
ghost use Rattle.session.specs.Feeding.{Carries};
ghost use Rattle.session.specs.Service.{GrowsByFront, Passes, Breaks, Finishes, Serves};
ghost use Rattle.std.specs.Io.KnownBytes.{Keeps, Consumes, IsAtEnd, WriteAppends};

use crate::answer::{answer, answer_open};
use crate::held::Held;
use crate::states::Session;
use cells::CellMemory;
use codes::Refusal;
use frames::{Frame, LINE_FEED, LONGEST, parse};
use std::io;
use std::io::{ErrorKind, Read, Write};
use stepper::run::Run;
use thiserror::Error;

/// Why a service ended before its input did.
#[derive(Debug, Drop, Error)]
pub enum ServeError {
    /// The input could not be read. Every line that was read whole has its reply written.
    #[error("the input cannot be read: {0}")]
    Read(io::Error),
    /// A reply could not be written. What is written is a front of the replies to the lines that were read.
    #[error("the replies cannot be written: {0}")]
    Write(io::Error),
}

// Replies to a frame, or to a line that is none, while a run is open and there is room for the longest reply: where the reply
// ends.
fn reply_open<M: CellMemory>(
    run: &mut Run<M>,
    frame: Result<Frame, Refusal>,
    out: &mut [u8],
    at: usize,
) -> usize
    requires { at + 32901 ≤ length out.old }
    ensures { Written (Serving (state_of M.cells run.old)) frame at out.old out.new result (Serving (state_of M.cells run.new)) }
{
    // There is always an end.
    answer_open(run, frame, out, at).unwrap_or(at)
}

// Replies as `reply_open` does, whether or not a run is open: takes out what is in the slot, and puts back what is there after.
fn reply_moved<M: CellMemory + Drop>(
    slot: &mut Option<Session<M>>,
    frame: Result<Frame, Refusal>,
    out: &mut [u8],
    at: usize,
) -> usize
    requires room { at + 32901 ≤ length out.old }
    requires there { IsSome slot.old }
    ensures written { Written (session_in M.cells slot.old) frame at out.old out.new result (session_in M.cells slot.new) }
    ensures there { IsSome slot.new }
{
    let Some(session) = slot.take() else {
        return at;
    };
    let answered = answer(session, frame, out, at);
    *slot = Some(answered.session);
    // There is always an end.
    answered.end.unwrap_or(at)
}

// The same, where a run stays where it is: it has some thousands of bytes, which take longer to move than most lines to reply to.
fn reply<M: CellMemory + Drop>(
    slot: &mut Option<Session<M>>,
    frame: Result<Frame, Refusal>,
    out: &mut [u8],
    at: usize,
) -> usize
    requires room { at + 32901 ≤ length out.old }
    requires there { IsSome slot.old }
    ensures written { Written (session_in M.cells slot.old) frame at out.old out.new result (session_in M.cells slot.new) }
    ensures there { IsSome slot.new }
{
    if let Some(Session::Open(run)) = slot {
        reply_open(run, frame, out, at)
    } else {
        reply_moved(slot, frame, out, at)
    }
}

// How many bytes stand in front of the first line feed.
fn before_feed(bytes: &[u8]) -> usize
    ensures free { feed_at (take result bytes.now) ≡ result }
    ensures within { result ≤ length bytes.now }
{
    let mut n = 0;
    while n < bytes.len() && bytes[n] != LINE_FEED {
        n += 1;
    }
    n
}

// Takes in a byte that is no line feed, and the rest of a line that is longer than each frame: how many bytes that rest has.
fn hold(held: &mut Held, byte: u8, behind: &[u8]) -> usize
    ensures held { held.new ≡ take 23 (held.old ++ (byte ∷ take result behind.now)) }
    ensures free { feed_at (take result behind.now) ≡ result }
    ensures within { result ≤ length behind.now }
{
    if held.is_full() {
        return before_feed(behind);
    }
    held.push(byte);
    0
}

// How many bytes were taken in, and where the replies end.
#[derive(Clone, Copy, PartialEq, Eq, Debug)]
struct TakenIn {
    used: usize,
    end: usize,
}

// Takes in bytes as long as the area has room for a reply, and replies to each line that ends.
fn take_in<M: CellMemory + Drop>(
    slot: &mut Option<Session<M>>,
    held: &mut Held,
    bytes: &[u8],
    out: &mut [u8],
) -> TakenIn
    requires room { 32901 ≤ length out.old }
    requires there { IsSome slot.old }
    ensures carries { Carries (session_in M.cells slot.old) held.old (take result.used bytes.now) held.new (take result.end out.new) (session_in M.cells slot.new) }
    ensures there { IsSome slot.new }
    ensures used { result.used ≤ length bytes.now }
    ensures end { result.end ≤ length out.new }
    ensures some { result.used ≡ 0 → length bytes.now ≡ 0 }
{
    let mut used = 0;
    let mut end = 0;
    while used < bytes.len() {
        if out.len() - end < LONGEST {
            return TakenIn { used, end };
        }
        let byte = bytes[used];
        used += 1;
        if byte == LINE_FEED {
            end = reply(slot, parse(held.as_slice()), out, end);
            *held = Held::new();
        } else {
            used += hold(held, byte, &bytes[used..]);
        }
    }
    TakenIn { used, end }
}

// Writes some bytes; none where that was interrupted.
fn write_some<W: Write>(output: &mut W, bytes: &[u8]) -> io::Result<usize>
    ensures bytes { WriteAppends (W.contents output.old) (W.contents output.new) result bytes.now }
    ensures bound { IfOk result (λ n. n ≤ length bytes.now) }
{
    match output.write(bytes) {
        Ok(0) => Err(io::Error::other("no byte was written")),
        Ok(n) => Ok(n),
        Err(e) if e.kind() == ErrorKind::Interrupted => Ok(0),
        Err(e) => Err(e),
    }
}

// Writes bytes, or a front of them where that fails. `write_all` says nothing of what it wrote before an error.
fn write_whole<W: Write>(output: &mut W, bytes: &[u8]) -> io::Result<()>
    ensures { GrowsByFront (W.contents output.old) (W.contents output.new) bytes.now result }
{
    let mut rest = bytes;
    // A loop has to end.
    for _ in 0..u64::MAX {
        if rest.is_empty() {
            return output.flush();
        }
        let n = write_some(output, rest)?;
        rest = &rest[n..];
    }
    Err(io::Error::other("too many writes"))
}

// Takes in bytes and writes the replies to the lines that end.
fn pass_on<M: CellMemory + Drop, W: Write>(
    slot: &mut Option<Session<M>>,
    held: &mut Held,
    bytes: &[u8],
    out: &mut [u8],
    output: &mut W,
) -> io::Result<()>
    requires room { 32901 ≤ length out.old }
    requires there { IsSome slot.old }
    ensures ok { IfOk result (λ n. Passes (session_in M.cells slot.old) held.old bytes.now held.new (W.contents output.old) (W.contents output.new) (session_in M.cells slot.new)) }
    ensures err { IfErr result (λ e. Breaks (session_in M.cells slot.old) held.old bytes.now (W.contents output.old) (W.contents output.new)) }
    ensures there { IsSome slot.new }
{
    let mut rest = bytes;
    while !rest.is_empty() {
        let taken = take_in(slot, held, rest, out);
        write_whole(output, &out[..taken.end])?;
        rest = &rest[taken.used..];
    }
    Ok(())
}

// Replies to the last line, which has no line feed, where there is one.
fn finish<M: CellMemory + Drop, W: Write>(
    slot: &mut Option<Session<M>>,
    held: &Held,
    out: &mut [u8],
    output: &mut W,
) -> io::Result<()>
    requires room { 32901 ≤ length out.old }
    requires there { IsSome slot.old }
    ensures { Finishes (session_in M.cells slot.old) held.now (W.contents output.old) (W.contents output.new) result }
{
    let line = held.as_slice();
    if line.is_empty() {
        return Ok(());
    }
    let end = reply(slot, parse(line), out, 0);
    write_whole(output, &out[..end])
}

// How many bytes were read, and whether the input has ended.
#[derive(Clone, Copy, PartialEq, Eq, Debug)]
struct Got {
    len: usize,
    ended: bool,
}

// Reads some bytes; none where that was interrupted, or at the end.
fn read_some<R: Read>(input: &mut R, chunk: &mut [u8]) -> io::Result<Got>
    requires { 0 < length chunk.old }
    ensures bytes { IfOk result (λ got. Consumes (R.remaining input.old) (R.remaining input.new) (take got.len chunk.new)) }
    ensures bound { IfOk result (λ got. got.len ≤ length chunk.new) }
    ensures end { IfOk result (λ got. got.ended ≡ true → (got.len ≡ 0) × IsAtEnd (R.remaining input.new)) }
    ensures err { IfErr result (λ e. Keeps (R.remaining input.old) (R.remaining input.new)) }
{
    match input.read(chunk) {
        Ok(len) => Ok(Got {
            len,
            ended: len == 0,
        }),
        Err(e) if e.kind() == ErrorKind::Interrupted => Ok(Got {
            len: 0,
            ended: false,
        }),
        Err(e) => Err(e),
    }
}

/// Reads lines to the end of the input and writes the reply to each. A line of any length is read, and no heap is needed. The
/// replies to all lines that were read are written before more is read. Nothing is open at the start.
pub fn serve_lines<M: CellMemory + Drop, R: Read, W: Write>(
    memory: M,
    input: &mut R,
    output: &mut W,
) -> Result<(), ServeError>
    ensures { Serves (Waiting (M.cells memory)) (R.remaining input.old) (R.remaining input.new) (W.contents output.old) (W.contents output.new) result }
{
    let mut slot = Some(Session::Closed(memory));
    let mut held = Held::new();
    let mut chunk = [0; 4096];
    // Room for the replies to the lines of a chunk that ask for no page, and for a page.
    let mut out = [0; 41093];
    // A loop has to end.
    for _ in 0..u64::MAX {
        let got = match read_some(input, &mut chunk) {
            Ok(got) => got,
            Err(e) => return Err(ServeError::Read(e)),
        };
        if got.ended {
            return match finish(&mut slot, &held, &mut out, output) {
                Ok(()) => Ok(()),
                Err(e) => Err(ServeError::Write(e)),
            };
        }
        match pass_on(&mut slot, &mut held, &chunk[..got.len], &mut out, output) {
            Ok(()) => {}
            Err(e) => return Err(ServeError::Write(e)),
        }
    }
    Err(ServeError::Read(io::Error::other("too many reads")))
}
