// A whole schedule in one call over words, for C and Rust to link. A library of its own, so that the compiler joins all of a
// turn's functions into one.
#![tactic(auto)]

ghost use Rattle.replay.specs.Replayed.{Replays};

use cells::Words;
use replay::replay;

/// Writes a reply line for each line of the text into `out`, in order, and answers how many bytes it wrote. A word is a cell.
/// Nothing is open at its start, whatever the words hold. A line whose reply does not fit whole is not carried out and ends
/// the replay: the words are then the cells after the lines whose replies were written, and the rest of `out` is as it was.
/// For C a slice is a pointer and then a length.
#[unsafe(no_mangle)]
pub extern "C" fn zibdalk_words(words: &mut [u32], text: &[u8], out: &mut [u8]) -> usize
    ensures { Replays words.old text.now out.old out.new result words.new }
{
    let mut memory = Words { words };
    replay(&mut memory, text, out)
}
