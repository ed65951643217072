// A whole schedule in one call over a byte image, for C and Rust to link. A library of its own, so that the compiler joins all
// of a turn's functions into one.
#![tactic(auto)]

ghost use Rattle.std.specs.Prelude.{◌≡◌};
ghost use Rattle.cells.specs.FourBytes.{words_of, spare_of};
ghost use Rattle.replay.specs.Replayed.{Replays};

use cells::Image;
use replay::replay;

/// Writes a reply line for each line of the text into `out`, in order, and answers how many bytes it wrote. Four bytes are a
/// cell, highest first; those left over at the end stay. Nothing is open at its start, whatever the bytes hold. A line whose
/// reply does not fit whole is not carried out and ends the replay: the cells are then those after the lines whose replies
/// were written, and the rest of `out` is as it was. For C a slice is a pointer and then a length.
#[unsafe(no_mangle)]
pub extern "C" fn zibdalk_image(bytes: &mut [u8], text: &[u8], out: &mut [u8]) -> usize
    ensures replays { Replays (words_of bytes.old) text.now out.old out.new result (words_of bytes.new) }
    ensures spare { spare_of bytes.new ≡ spare_of bytes.old }
{
    let mut memory = Image { bytes };
    replay(&mut memory, text, out)
}
