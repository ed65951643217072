// A session: one reply to each line, over any cell memory.
#![tactic(auto)]

pub mod answer;
mod ask;
pub mod facts;
mod held;
pub mod serve;
pub mod states;
