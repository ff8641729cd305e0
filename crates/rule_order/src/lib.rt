//! A most-recent-first list of small indexes that moves an index to the front in constant time.
#![tactic(auto)]

mod links;
mod order;
#[cfg(test)]
mod tests;

pub use order::Order;
