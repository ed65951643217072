// The sizes of an opening, the names of the cells, and where each lies.
#![tactic(auto)]

pub mod index;
pub mod laws;
pub mod names;
pub mod opening;
pub mod rows;
pub mod sizes;
