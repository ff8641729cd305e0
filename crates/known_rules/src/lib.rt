//! What a pass knows of the rules of one binder. Each known rule is adopted: what it claims holds in the table and for
//! the functions of its pass. So a known rule that passes on an operation fits the object as it stands.
#![tactic(auto)]

mod adopting;
mod bound;
mod guard;
mod known;
mod plain;
mod publishing;
mod snapshots;
#[cfg(test)]
mod tests;

pub use bound::BoundRule;
pub use guard::agree;
pub use known::{Fitting, KnownRules};
pub use publishing::PublishAnswer;
