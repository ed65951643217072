// A run of the versioned contact graph, one atomic step a turn, over any cell memory.
#![tactic(auto)]

mod advance;
pub mod begin;
pub mod lent;
mod named;
pub mod open;
pub mod page_cells;
pub mod pages;
pub mod perform;
pub mod questions_to_pages;
pub mod run;
pub mod several;
pub mod ticket;
pub mod turn;
