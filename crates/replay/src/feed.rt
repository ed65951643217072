// The frame of a text's first line, and what stands behind the line.
ghost use Rattle.std.specs.Prelude.{◌≡◌, ◌==◌};
ghost use Rattle.std.specs.List.{position};
ghost use Rattle.frames.specs.Frames.{frame_in};
ghost use Rattle.frames.specs.Hex.{bytes_of};
ghost use Rattle.session.specs.Texts.{line_of, behind_line};

use codes::Refusal;
use frames::{Frame, LINE_FEED, parse};

// Where the first line feed stands.
fn feed(text: &[u8]) -> Option<usize>
    ensures { result ≡ position (λ b. b == LINE_FEED) text.now }
{
    text.iter().position(|b| *b == LINE_FEED)
}

// The first line without its line feed, and what stands behind it.
fn split(text: &[u8]) -> (&[u8], &[u8])
    ensures line { result.0.now ≡ line_of text.now }
    ensures rest { result.1.now ≡ behind_line text.now }
{
    match feed(text) {
        Some(n) => (&text[..n], &text[n + 1..]),
        None => (text, &[]),
    }
}

// The frame that the first line is, or its refusal, and what stands behind the line.
pub(crate) fn first(text: &[u8]) -> (Result<Frame, Refusal>, &[u8])
    ensures frame { result.0 ≡ frame_in (bytes_of (line_of text.now)) }
    ensures rest { result.1.now ≡ behind_line text.now }
{
    // The kind of a frame tells how many digits it has. Where a frame of so many stands, no line feed has to be sought.
    let n = match text {
        [_, b'1', ..] => 22,
        [_, b'2', ..] => 18,
        [_, b'3', ..] => 6,
        _ => 4,
    };
    if n < text.len() && text[n] == LINE_FEED {
        let frame = parse(&text[..n]);
        if frame.is_ok() {
            return (frame, &text[n + 1..]);
        }
    }
    let (line, rest) = split(text);
    (parse(line), rest)
}
