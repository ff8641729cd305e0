//! Call sites: what each remembers of the rules that were used there, and the choice of a known rule by it.
#![tactic(auto)]

mod choice;
mod memo;
mod passes;
mod places;
mod plays;
mod select;
mod settle;
mod sites;
#[cfg(test)]
mod tests;

pub use choice::{Choice, Level};
pub use memo::{Count, Memo};
pub use sites::{SitePass, Sites};
