// What a worker keeps beside its page while it makes one: the keys walked, and the keys to serve.
#![tactic(auto)]

pub mod book;
pub mod serve;
pub mod walked;
