// Where a worker stands in its call, what its next turn touches, and what follows.
#![tactic(auto)]

pub mod call;
pub mod lookup;
pub mod mark;
pub mod next;
pub mod place;
pub mod private;
pub mod touch;
pub mod walking;
