//! Class numbers with their lists of member names: threads add classes to one table, and a number keeps its list for good.
#![tactic(auto)]

mod class;
mod names;
mod pass;
mod table;
#[cfg(test)]
mod tests;

pub use class::ClassRef;
pub use pass::ClassPass;
pub use table::ClassTable;
