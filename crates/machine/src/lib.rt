// The pure machine under a run: requests and replies, the records of the workers, and the states that requests lead to.
#![tactic(auto)]

pub mod laws;
pub mod request;
pub mod several;
pub mod table;
pub mod worker;
pub mod worker_index;
