// What is replied to a line, but for a page.
ghost use Rattle.std.specs.Prelude.{◌≡◌};
ghost use Rattle.frames.specs.Replies.{code_byte};

use codes::{Answer, Refusal};

/// How a request went. No answer: done, or still running.
pub type Code = Result<Option<Answer>, Refusal>;

/// The byte of a code: 00 for no answer, else that of the answer or of the refusal.
// `Result` is the library's, so no `From`.
pub fn code_byte(code: Code) -> u8
    ensures { result ≡ code_byte code }
{
    match code {
        Ok(None) => 0,
        Ok(Some(answer)) => answer.into(),
        Err(refusal) => refusal.into(),
    }
}

/// What is replied to a line, but for a page.
// Each takes any code, so that a code has its byte in one place.
#[derive(Clone, Copy, PartialEq, Eq, Debug)]
pub enum Reply {
    /// To an opening.
    ToOpen(Code),
    /// To the begin of a call.
    ToBegin(Code),
    /// To turns, with how many were used.
    ToTurns(Code, u8),
    /// To a page that is asked for and not shown.
    ToTake(Refusal),
    /// To a line that is no frame, or none while nothing is open.
    NoFrame,
}
