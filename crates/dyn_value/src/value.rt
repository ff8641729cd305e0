ghost use Rattle.std.specs.Prelude.{◌≡◌, ◌↔◌, ◌++◌, IsTrue, IfOk, OnOk, OnErr, ◌≤◌, encode_utf8_all, string_bytes, string_len};
ghost use Rattle.std.specs.Char.{is_ascii};
ghost use Rattle.std.specs.List.{list_all};
ghost use Rattle.std.specs.Str.{chars};
ghost use Rattle.dyn_value.specs.Kinds.{kind_of};
ghost use Rattle.dyn_value.specs.Proper.{IsText};
ghost use Rattle.dyn_value.specs.Texts.{kind_name, plain, quoted};

use crate::text::DynText;
use crate::{label, quote};
use std::alloc::{AllocError, Global};

/// The kinds of values.
#[derive(Clone, Copy, Debug, PartialEq, Eq)]
pub enum Kind {
    Nil,
    Bool,
    Int,
    Text,
    Fun,
    Obj,
}

impl Kind {
    /// The name of the kind.
    pub fn name(self) -> &'static str
        ensures name { result.now ≡ kind_name self }
        ensures ascii { IsTrue (list_all is_ascii result.now) }
    {
        match self {
            Kind::Nil => "Nil",
            Kind::Bool => "Bool",
            Kind::Int => "Int",
            Kind::Text => "Text",
            Kind::Fun => "Fun",
            Kind::Obj => "Obj",
        }
    }
}

/// A value of the script language. A function and an object are named by their numbers.
#[derive(Debug, Drop)]
pub enum Value {
    Nil,
    Bool(bool),
    Int(i64),
    Text(DynText),
    Fun(u32),
    Obj(u32),
}

impl Value {
    /// The kind of the value.
    pub fn kind(&self) -> Kind
        ensures { result ≡ kind_of self.now }
    {
        match self {
            Value::Nil => Kind::Nil,
            Value::Bool(_) => Kind::Bool,
            Value::Int(_) => Kind::Int,
            Value::Text(_) => Kind::Text,
            Value::Fun(_) => Kind::Fun,
            Value::Obj(_) => Kind::Obj,
        }
    }

    /// Whether the two values have the same kind and the same content.
    pub fn same(&self, other: &Value) -> bool
        ensures { IsTrue result ↔ (self.now ≡ other.now) }
    {
        match (self, other) {
            (Value::Nil, Value::Nil) => true,
            (Value::Bool(mine), Value::Bool(theirs)) => mine == theirs,
            (Value::Int(mine), Value::Int(theirs)) => mine == theirs,
            (Value::Text(mine), Value::Text(theirs)) => mine.same(theirs),
            (Value::Fun(mine), Value::Fun(theirs)) => mine == theirs,
            (Value::Obj(mine), Value::Obj(theirs)) => mine == theirs,
            _ => false,
        }
    }

    /// An equal value. The one error is want of memory.
    pub fn copy(&self) -> Result<Value, AllocError>
        ensures { IfOk result (λ v. v ≡ self.now) }
    {
        Ok(match self {
            Value::Nil => Value::Nil,
            Value::Bool(truth) => Value::Bool(*truth),
            Value::Int(number) => Value::Int(*number),
            Value::Text(text) => Value::Text(text.copy()?),
            Value::Fun(number) => Value::Fun(*number),
            Value::Obj(number) => Value::Obj(*number),
        })
    }

    /// The plain text of the value. The one error is want of memory.
    pub fn to_text(&self, alloc: Global) -> Result<DynText, AllocError>
        ensures characters { IfOk result (λ t. t ≡ plain self.now) }
        ensures proper { IfOk result IsText }
    {
        DynText::from_string(self.plain_text(alloc)?)
    }

    /// Appends the plain text of the value, as UTF-8. Where memory is refused, `out` stays as it was.
    pub fn print_to(&self, out: &mut Vec<u8>) -> Result<(), AllocError>
        ensures appended { OnOk result (out.new.items ≡ out.old.items ++ encode_utf8_all (plain self.now)) }
        ensures refused { OnErr result (out.new.items ≡ out.old.items) }
    {
        // A text stands in UTF-8 already.
        if let Value::Text(text) = self {
            return out.extend_from_slice(text.as_str().as_bytes());
        }
        let text = self.plain_text(*out.allocator())?;
        out.extend_from_slice(text.as_bytes())
    }

    /// Appends the quoted text of the value, as UTF-8: a text stands between quotation marks, with the
    /// escapes `\"`, `\\`, `\n` and `\t`, and every other value as by [`Value::print_to`]. Where memory is
    /// refused, `out` stays as it was.
    pub fn quote_to(&self, out: &mut Vec<u8>) -> Result<(), AllocError>
        ensures appended { OnOk result (out.new.items ≡ out.old.items ++ encode_utf8_all (quoted self.now)) }
        ensures refused { OnErr result (out.new.items ≡ out.old.items) }
    {
        let text = self.quoted_text(*out.allocator())?;
        out.extend_from_slice(text.as_bytes())
    }

    fn plain_text(&self, alloc: Global) -> Result<String, AllocError>
        ensures characters { IfOk result (λ s. chars (string_bytes s) ≡ plain self.now) }
        ensures fits { IfOk result (λ s. string_len s ≤ 65536) }
    {
        match self {
            Value::Nil => label::alone(alloc, "nil"),
            Value::Bool(true) => label::alone(alloc, "true"),
            Value::Bool(false) => label::alone(alloc, "false"),
            Value::Int(number) => label::number(alloc, *number),
            Value::Text(text) => text.to_string(alloc),
            Value::Fun(number) => label::with_number(alloc, "fn#", *number),
            Value::Obj(number) => label::with_number(alloc, "obj#", *number),
        }
    }

    fn quoted_text(&self, alloc: Global) -> Result<String, AllocError>
        ensures { IfOk result (λ s. chars (string_bytes s) ≡ quoted self.now) }
    {
        match self {
            Value::Text(text) => quote::quoted(alloc, text),
            _ => self.plain_text(alloc),
        }
    }
}
