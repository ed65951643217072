// Questions on a page: which keys walks from a key reach, and the best values of such walks.
#![tactic(auto)]

mod best_first;
mod breadth_first;
mod entry;
mod export;
mod laws;
mod measure;
mod page;
mod row;
mod unanswered;
mod view;

pub use best_first::best;
pub use breadth_first::order;
pub use entry::Entry;
pub use export::{questions_order, questions_total, questions_weakest};
pub use laws::{cases_stand, entries_fixed, order_stands, walks_stand};
pub use measure::{Measure, Total, Weakest};
pub use page::Page;
pub use row::Row;
pub use unanswered::Unanswered;
pub use view::GraphView;
