// Answers and refusals, the byte of each, and the cell of a pair on a page.
#![tactic(auto)]

pub mod answer;
pub mod page;
pub mod refusal;

pub use answer::Answer;
pub use page::{NO_EDGE, weight_of};
pub use refusal::Refusal;
