//! The rules on the names of a script: which name is the first that breaks one.
#![tactic(auto)]

mod expressions;
mod item_names;
mod laws;
mod name_set;
mod scripts;
mod statements;

pub use laws::each_token_is_judged;
pub use scripts::first_bad_name;
