// Replies to the lines of a text.
ghost use Rattle.std.specs.Prelude.{◌≡◌};
ghost use Rattle.replay.specs.Replayed.{Replays};

use crate::closed::replay_closed;
use crate::open::replay_open;
use cells::CellMemory;
use stepper::run::Run;

/// Writes a reply line for each line of the text into `out`, in order, and answers how many bytes it wrote. Nothing is open at
/// its start, whatever a call before it left in the memory. A line whose reply does not fit whole is not carried out and ends
/// the replay: the cells are those after the lines whose replies were written.
pub fn replay<M: CellMemory>(memory: &mut M, text: &[u8], out: &mut [u8]) -> usize
    ensures replays { Replays (M.cells memory.old) text.now out.old out.new result (M.cells memory.new) }
    ensures spare { M.spare memory.new ≡ M.spare memory.old }
    ensures name { M.name memory.new ≡ M.name memory.old }
{
    let (n, opened, rest) = replay_closed(memory, text, out);
    let Some(sizes) = opened else {
        return n;
    };
    let mut run = Run::over(memory, sizes);
    replay_open(&mut run, rest, out, n)
}
