//! Histories of objects: each object with the journal of the operations on it, as a row that passes take turns on.
#![tactic(auto)]

mod entry_head;
mod held;
mod object_row;
mod ready;
mod sound;
mod tag;
#[cfg(test)]
mod tests;

pub use entry_head::EntryHead;
pub use object_row::ObjectRow;
pub use ready::Ready;
pub use sound::Sound;
pub use tag::{RowTag, Tag};
