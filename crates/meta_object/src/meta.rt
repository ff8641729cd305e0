//! Metaobjects: what a binding knows of an operand.
ghost use Rattle.std.specs.Prelude.{◌≡◌, IfOk};
ghost use Rattle.std.specs.Option.{option_copied};
ghost use Rattle.meta_object.specs.Metas.{IsLendable, IsMetaOf, class_in_shape};

use dyn_value::{Kind, Value};
use expando_class::ClassRef;
use restrictions::Restrictions;
use std::alloc::{AllocError, Global};

/// What an operand is seen as: a value of a kind, or an object of a class.
#[derive(Drop)]
pub enum Shape {
    Plain(Kind),
    Expando(ClassRef),
}

/// What a binding knows of an operand.
#[derive(Drop)]
pub struct MetaObject {
    /// The operand's number, 0 for the target.
    pub operand: u8,
    /// What is known to hold of it already.
    pub restrictions: Restrictions,
    /// What it is seen as.
    pub shape: Shape,
    /// The value itself, of a function or a text.
    pub value: Option<Value>,
}

impl Shape {
    /// The class of the object; none of any other value.
    pub fn class(&self) -> Option<&ClassRef>
        ensures { option_copied result ≡ class_in_shape self.now }
    {
        match self {
            Shape::Expando(class) => Some(class),
            Shape::Plain(_) => None,
        }
    }
}

impl MetaObject {
    /// The metaobject of an operand: of the class that is lent, and else of the value's kind. A class is lent for an
    /// object alone. The one error is want of memory.
    pub fn of(
        alloc: Global,
        operand: u8,
        value: &Value,
        class: Option<&ClassRef>,
    ) -> Result<MetaObject, AllocError>
        requires { IsLendable (option_copied class) value.now }
        ensures { IfOk result (IsMetaOf operand value.now (option_copied class.entry)) }
    {
        let known = match value {
            Value::Fun(_) | Value::Text(_) => Some(value.copy()?),
            _ => None,
        };
        let shape = match class {
            Some(class) => Shape::Expando(class.copy()),
            None => Shape::Plain(value.kind()),
        };
        Ok(MetaObject {
            operand,
            restrictions: Restrictions::empty(alloc),
            shape,
            value: known,
        })
    }
}
