//! Rules, which are sound by their type; the binding of operations, and the check of what a rule claims.
#![tactic(auto)]

mod binding;
mod claimed;
mod class_lists;
mod fitting;
mod printing;
mod rule;
#[cfg(test)]
mod tests;

pub use binding::{Binds, bind};
pub use claimed::{Adopted, Claimed, claim_holds};
pub use rule::Rule;
