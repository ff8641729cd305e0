use dyn_value::{DynText, Value};
use std::marker::Model;

/// A member of an object: a name and its value.
///
/// Contracts see it as the record of the two.
#[derive(Debug, Drop)]
pub struct Member {
    pub name: DynText,
    pub value: Value,
}

impl Model for Member {
    ghost use Rattle.object_model.specs.Members.{Member as Pair};

    ghost Value = { Pair };

    ghost view = { λ m. record { name = m.name; value = m.value } };
}
