// The digits of a reply's line.
ghost use Rattle.std.specs.Prelude.{◌≡◌, [], ◌∷◌};
ghost use Rattle.frames.specs.Hex.{hex_of};
ghost use Rattle.frames.specs.Replies.{line_digits, reply_line};

use crate::hex::digits;
use crate::reply::{Reply, code_byte};
use codes::Refusal;

/// The digits of a reply's line: of two bytes, or of three where a count stands behind them. It needs no heap.
#[derive(Clone, Copy, PartialEq, Eq, Debug)]
pub enum Line {
    /// A kind and a code.
    Two([u8; 4]),
    /// A kind, a code and a count.
    Three([u8; 6]),
}

impl Line {
    // The line of a kind and a code.
    fn of(kind: u8, code: u8) -> Line
        ensures { line_digits result ≡ hex_of (kind ∷ (code ∷ [])) }
    {
        let [k1, k0] = digits(kind);
        let [c1, c0] = digits(code);
        Line::Two([k1, k0, c1, c0])
    }

    // The line of a kind, a code and a count.
    fn counted(kind: u8, code: u8, count: u8) -> Line
        ensures { line_digits result ≡ hex_of (kind ∷ (code ∷ (count ∷ []))) }
    {
        let [k1, k0] = digits(kind);
        let [c1, c0] = digits(code);
        let [n1, n0] = digits(count);
        Line::Three([k1, k0, c1, c0, n1, n0])
    }

    /// The digits, without a line feed.
    pub fn as_slice(&self) -> &[u8]
        ensures { result.now ≡ line_digits self.now }
    {
        match self {
            Line::Two(digits) => digits,
            Line::Three(digits) => digits,
        }
    }
}

impl Reply {
    /// The line of the reply, without a line feed.
    pub fn line(self) -> Line
        ensures { line_digits result ≡ reply_line self }
    {
        match self {
            Reply::ToOpen(code) => Line::of(0x81, code_byte(code)),
            Reply::ToBegin(code) => Line::of(0x82, code_byte(code)),
            Reply::ToTurns(code, used) => Line::counted(0x83, code_byte(code), used),
            Reply::ToTake(refusal) => Line::of(0x84, refusal.into()),
            Reply::NoFrame => Line::of(0xFF, Refusal::NoFrame.into()),
        }
    }
}
