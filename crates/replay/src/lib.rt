// A whole schedule in one call, over any cell memory, into an area of bytes.
#![tactic(auto)]

mod closed;
mod feed;
mod open;
mod schedule;

pub use schedule::replay;
