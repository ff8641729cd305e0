//! What a binding knows of operands, and how an object of the runtime takes part in it.
#![tactic(auto)]

mod bind;
mod bound;
mod context;
mod language;
mod laws;
mod member;
mod meta;
mod suggestion;
#[cfg(test)]
mod tests;

pub use bound::Bound;
pub use context::BindContext;
pub use language::Language;
pub use laws::{
    metaobjects_describe_their_operands, operations_are_bound_by_their_metaobjects,
    tests_are_those_of_the_operands,
};
pub use member::member_bound;
pub use meta::{MetaObject, Shape};
