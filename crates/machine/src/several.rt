// What several turns of one worker come to.
use codes::Answer;

/// Up to a number of turns of one worker: the answer, where the last of them answered, and how many were used.
#[derive(Clone, Copy, PartialEq, Eq, Debug)]
pub struct Several {
    pub answer: Option<Answer>,
    pub used: u8,
}
