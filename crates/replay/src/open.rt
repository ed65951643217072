// Replies to the lines of a text while a run is open.
ghost use Rattle.std.specs.Prelude.{◌≡◌, ◌≤◌, length};
ghost use Rattle.stepper.specs.Runs.{memory_of, state_of};
ghost use Rattle.session.specs.Sessions.{SessionState.Running as Serving};
ghost use Rattle.replay.specs.Replayed.{Replayed};

use crate::feed::first;
use cells::CellMemory;
use session::answer::answer_open;
use stepper::run::Run;

// Writes a reply line for each line of the text from `at` on, and says where they end. A run that is open stays open.
pub(crate) fn replay_open<M: CellMemory>(
    run: &mut Run<M>,
    text: &[u8],
    out: &mut [u8],
    at: usize,
) -> usize
    requires { at ≤ length out.old }
    ensures replayed { Replayed (Serving (state_of M.cells run.old)) text.now out.old out.new at result (Serving (state_of M.cells run.new)) }
    ensures spare { M.spare (memory_of run.new) ≡ M.spare (memory_of run.old) }
    ensures name { M.name (memory_of run.new) ≡ M.name (memory_of run.old) }
{
    let mut rest = text;
    let mut n = at;
    // A loop over `split_inclusive` in a generic function gets no proof.
    while !rest.is_empty() {
        let (frame, behind) = first(rest);
        // What was written so far is the answer, so no `?`.
        let Some(end) = answer_open(run, frame, out, n) else {
            return n;
        };
        n = end;
        rest = behind;
    }
    n
}
