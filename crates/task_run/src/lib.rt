//! The run of a task's acts over a store of objects: both forms of store tell the same, and what a walk did is the run
//! over what its world gained.
#![tactic(auto)]

mod laws;

pub use laws::{stores_are_alike, what_was_done_is_added, what_was_done_is_the_run};
