//! What rules are about: claims on a class and on a function, when a rule is sound, and what is answered on members.
#![tactic(auto)]

mod claim;
mod laws;
mod reach;
#[cfg(test)]
mod tests;

pub use claim::{Claim, ClassClaim, FunClaim};
pub use laws::sound_rules_hold_under_all_class_maps;
pub use reach::Reach;
