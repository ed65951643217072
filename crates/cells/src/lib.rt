// Cell memory, over the caller's words and over a byte image.
#![tactic(auto)]

mod image;
mod lent;
mod memory;
mod words;

pub use image::Image;
pub use memory::CellMemory;
pub use words::Words;
