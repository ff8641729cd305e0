//! The text of what a run came to.

mod entries;
mod journals;
mod rendering;
mod texts;

pub use rendering::render;
pub(crate) use texts::{put_ascii, put_number};
