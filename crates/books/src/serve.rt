// The next pair to walk.
ghost use Rattle.std.specs.Prelude.{◌≡◌, ◌+◌, ◌*◌, ◌/◌, ◌%◌};
ghost use Rattle.books.specs.Serving.{pair_number, open_pair, open_from, serve_from, survey_done, walk_or};

use crate::book::Book;
use codes::Answer;
use layout::rows::NO_ROW;
use layout::sizes::Sizes;
use places::place::{Job, ServedPair, Survey};
use std::ops::ControlFlow;

/// The answer of a finished page.
pub fn survey_done(survey: Survey) -> Answer
    ensures { result ≡ survey_done survey }
{
    match survey {
        Survey::Snapshot => Answer::SnapshotTaken,
        Survey::Reach(_) => Answer::ReachTaken,
    }
}

// The position and the key of a pair that may be named with a key past the last one.
fn positioned(sizes: Sizes, position: u8, to: u16) -> (usize, usize)
    ensures { result ≡ (position + to / sizes.keys, to % sizes.keys) }
{
    let position = position as usize;
    let to = to as usize;
    if to < sizes.keys {
        (position, to)
    } else {
        (position + to / sizes.keys, to % sizes.keys)
    }
}

// The survey is the worker's and the sizes are the run's: a struct of both would be made anew for each call, so they come apart.
impl Book {
    // Whether a pair is to be walked.
    fn is_open(&self, survey: Survey, from: u8, to: u8) -> bool
        ensures { result ≡ open_pair self.now survey from to }
    {
        match survey {
            Survey::Snapshot => from != to && self.key(from) != NO_ROW && self.key(to) != NO_ROW,
            Survey::Reach(_) => from != to,
        }
    }

    // The first pair to walk, from the one of the key at a position and key `to` on.
    fn seek(&self, survey: Survey, sizes: Sizes, position: u8, to: u16) -> Option<Job>
        ensures { result ≡ open_from self.now survey sizes.keys (position * sizes.keys + to) }
    {
        let start = position as usize * sizes.keys + to as usize;
        // The position and the key of pair number x go along with it: to divide at each pair would take longer.
        let (mut served, mut key) = positioned(sizes, position, to);
        for x in start..sizes.keys * self.len as usize {
            let from = self.queued(served);
            if self.is_open(survey, from, key as u8) {
                return Some(Job::Pair(ServedPair {
                    position: served as u8,
                    from,
                    to: key as u8,
                }));
            }
            key += 1;
            if key == sizes.keys {
                served += 1;
                key = 0;
            }
        }
        None
    }

    /// On to the next pair to walk, from the one of the key at a position and key `to` on, or the answer.
    pub fn serve(
        &self,
        survey: Survey,
        sizes: Sizes,
        position: u8,
        to: u16,
    ) -> ControlFlow<Answer, Job>
        ensures { walk_or survey result ≡ serve_from self.now survey sizes.keys (position * sizes.keys + to) }
    {
        match self.seek(survey, sizes, position, to) {
            Some(job) => ControlFlow::Continue(job),
            None => ControlFlow::Break(survey_done(survey)),
        }
    }

    // On to the next pair after one, or the answer.
    pub(crate) fn serve_after(
        &self,
        survey: Survey,
        sizes: Sizes,
        pair: ServedPair,
    ) -> ControlFlow<Answer, Job>
        ensures { walk_or survey result ≡ serve_from self.now survey sizes.keys (pair_number sizes.keys pair + 1) }
    {
        self.serve(survey, sizes, pair.position, pair.to as u16 + 1)
    }
}
