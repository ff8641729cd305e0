//! Restrictions: what must hold of operands and a class so that a rule serves, merged and made into one test.
#![tactic(auto)]

mod merge;
mod restriction;
mod set;
mod test_tree;
#[cfg(test)]
mod tests;

pub use merge::MergeRefused;
pub use restriction::Restriction;
pub use set::Restrictions;
