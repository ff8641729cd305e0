//! Reads scripts: from bytes to a program, which keeps a script's tree, its sites and its binders.
#![tactic(auto)]

mod laws;
mod parameters;
mod program;
mod reading;

pub use laws::{bytes_are_one_script, bytes_have_one_refusal, scripts_are_not_refused};
pub use program::Program;
pub use reading::{MOST_BYTES, ReadFault, ScriptRefused, read};
