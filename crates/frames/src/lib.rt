// The lines of text that are read as frames, and the lines that are written in reply.
#![tactic(auto)]

mod area;
pub mod frame;
mod hex;
mod laws;
pub mod line;
mod read;
pub mod reply;

pub use area::{LINE_FEED, LONGEST, page_len, put_page, put_reply};
pub use frame::Frame;
pub use laws::cases_stand;
pub use line::Line;
pub use read::parse;
pub use reply::{Code, Reply, code_byte};
