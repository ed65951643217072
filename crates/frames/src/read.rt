// Reading a line as a frame.
ghost use Rattle.std.specs.Prelude.{◌≡◌, ◌*◌, length, ok_or};
ghost use Rattle.codes.specs.declared.refusal.Refusal.TheVariants.{NoFrame};
ghost use Rattle.frames.specs.Hex.{bytes_of};
ghost use Rattle.frames.specs.Frames.{turns_of, frame_of, frame_in};

use crate::frame::Frame;
use crate::hex::byte;
use codes::Refusal;
use layout::opening::Opening;
use places::call::Begin;
use std::num::NonZeroU8;

// The bytes of a line of N digit pairs. An N for each length of a frame, so that the steps are known where it is compiled.
fn decode<const N: usize>(line: &[u8]) -> Result<[u8; N], Refusal>
    requires { length line.now ≡ 2 * N }
    ensures { result ≡ ok_or (bytes_of line.now) NoFrame }
{
    let mut bytes = [0; N];
    for i in 0..N {
        let Some(byte) = byte(line[2 * i], line[2 * i + 1]) else {
            return Err(Refusal::NoFrame);
        };
        bytes[i] = byte;
    }
    Ok(bytes)
}

// Turns of a worker, one at least.
fn turns_of(worker: u8, count: u8) -> Result<Frame, Refusal>
    ensures { result ≡ turns_of worker count }
{
    let Some(count) = NonZeroU8::new(count) else {
        return Err(Refusal::NoFrame);
    };
    Ok(Frame::Turns { worker, count })
}

// The frame of its bytes.
fn frame_of(bytes: &[u8]) -> Result<Frame, Refusal>
    ensures { result ≡ frame_of bytes.now }
{
    match bytes {
        [1, keys, workers, a1, a0, b1, b0, t3, t2, t1, t0] => Ok(Frame::Open(Opening {
            keys: *keys,
            workers: *workers,
            vrows: u16::from_be_bytes([*a1, *a0]),
            erows: u16::from_be_bytes([*b1, *b0]),
            top: u32::from_be_bytes([*t3, *t2, *t1, *t0]),
        })),
        [2, worker, call, from, to, w3, w2, w1, w0] => Ok(Frame::Begin(Begin {
            worker: *worker,
            call: *call,
            from: *from,
            to: *to,
            weight: u32::from_be_bytes([*w3, *w2, *w1, *w0]),
        })),
        [3, worker, count] => turns_of(*worker, *count),
        [4, worker] => Ok(Frame::Take { worker: *worker }),
        _ => Err(Refusal::NoFrame),
    }
}

// The frame of N bytes that a line is.
fn frame_with<const N: usize>(line: &[u8]) -> Result<Frame, Refusal>
    requires { length line.now ≡ 2 * N }
    ensures { result ≡ frame_in (bytes_of line.now) }
{
    frame_of(&decode::<N>(line)?)
}

/// The frame that a line is. The line comes without its line feed. A line is no frame where a character is no hexadecimal
/// digit, a digit of a pair is missing, the bytes are not those of a frame of its kind, or the count of turns is 0:
/// `Refusal::NoFrame`.
// A frame that goes through memory costs time, hence the hint.
#[inline(always)]
pub fn parse(line: &[u8]) -> Result<Frame, Refusal>
    ensures { result ≡ frame_in (bytes_of line.now) }
{
    match line.len() {
        4 => frame_with::<2>(line),
        6 => frame_with::<3>(line),
        18 => frame_with::<9>(line),
        22 => frame_with::<11>(line),
        _ => Err(Refusal::NoFrame),
    }
}
