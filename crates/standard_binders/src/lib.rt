//! The binders of the operations that a script can make, with what they name: the arguments of calls, and the
//! functions of a script.
#![tactic(auto)]

mod binder;
mod call_info;
mod fun_table;
#[cfg(test)]
mod tests;

pub use binder::Binder;
pub use call_info::CallInfo;
pub use fun_table::FunTable;
