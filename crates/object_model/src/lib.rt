//! What operations mean: on an object's members, and where they look at no object. The code is the plain, slow
//! stepping over the members as they stand.
#![tactic(auto)]

mod access;
mod call;
mod member;
mod members;
mod plain;
#[cfg(test)]
mod tests;

pub use call::call_outcome;
pub use member::Member;
pub use members::ObjectMembers;
pub use plain::plain_outcome;
