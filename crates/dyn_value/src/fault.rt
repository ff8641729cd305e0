ghost use Rattle.std.specs.Prelude.{◌≡◌, ◌↔◌, ◌++◌, IsTrue, IfOk, OnOk, OnErr, encode_utf8_all, string_bytes};
ghost use Rattle.std.specs.Str.{chars};
ghost use Rattle.dyn_value.specs.Texts.{fault_text};

use crate::label;
use crate::text::DynText;
use crate::value::Kind;
use std::alloc::{AllocError, Global};

/// Why an operation gave no value. A fault ends its task unless it is caught.
#[derive(Debug, Drop)]
pub enum Fault {
    /// The target has no member of this name.
    NoMember(DynText),
    /// The key names no place or member.
    NoIndex,
    /// A value of this kind has no places.
    NotIndexable(Kind),
    /// A value of this kind is no function.
    NotCallable(Kind),
    /// The function has the first number of parameters, and was given the second number of arguments.
    WrongCount(u32, u32),
    /// No parameter of this name is left to fill.
    NoParameter(DynText),
    /// The operator is not defined on operands of these kinds.
    NoOperator,
    /// The value has no counterpart of the wanted kind.
    NoConvert,
    /// No object can be made with a value of this kind.
    NotCreatable(Kind),
    /// The result lies outside 64 bits.
    Overflow,
    /// The divisor is 0.
    ZeroDivide,
    /// The text would have more than 65,536 bytes.
    TextLong,
    /// The object has 64 members already.
    MembersFull,
    /// No further object may be made in this run.
    HeapFull,
    /// No further level of evaluation may be opened.
    Depth,
    /// No further turn may be taken.
    Turns,
}

impl Fault {
    /// Whether the two faults have the same name and the same parts.
    pub fn same(&self, other: &Fault) -> bool
        ensures { IsTrue result ↔ (self.now ≡ other.now) }
    {
        match (self, other) {
            (Fault::NoMember(mine), Fault::NoMember(theirs)) => mine.same(theirs),
            (Fault::NoIndex, Fault::NoIndex) => true,
            (Fault::NotIndexable(mine), Fault::NotIndexable(theirs)) => mine == theirs,
            (Fault::NotCallable(mine), Fault::NotCallable(theirs)) => mine == theirs,
            (Fault::WrongCount(mine, count), Fault::WrongCount(theirs, given)) => {
                mine == theirs && count == given
            }
            (Fault::NoParameter(mine), Fault::NoParameter(theirs)) => mine.same(theirs),
            (Fault::NoOperator, Fault::NoOperator) => true,
            (Fault::NoConvert, Fault::NoConvert) => true,
            (Fault::NotCreatable(mine), Fault::NotCreatable(theirs)) => mine == theirs,
            (Fault::Overflow, Fault::Overflow) => true,
            (Fault::ZeroDivide, Fault::ZeroDivide) => true,
            (Fault::TextLong, Fault::TextLong) => true,
            (Fault::MembersFull, Fault::MembersFull) => true,
            (Fault::HeapFull, Fault::HeapFull) => true,
            (Fault::Depth, Fault::Depth) => true,
            (Fault::Turns, Fault::Turns) => true,
            _ => false,
        }
    }

    /// An equal fault. The one error is want of memory.
    pub fn copy(&self) -> Result<Fault, AllocError>
        ensures { IfOk result (λ f. f ≡ self.now) }
    {
        Ok(match self {
            Fault::NoMember(name) => Fault::NoMember(name.copy()?),
            Fault::NoIndex => Fault::NoIndex,
            Fault::NotIndexable(kind) => Fault::NotIndexable(*kind),
            Fault::NotCallable(kind) => Fault::NotCallable(*kind),
            Fault::WrongCount(parameters, count) => Fault::WrongCount(*parameters, *count),
            Fault::NoParameter(name) => Fault::NoParameter(name.copy()?),
            Fault::NoOperator => Fault::NoOperator,
            Fault::NoConvert => Fault::NoConvert,
            Fault::NotCreatable(kind) => Fault::NotCreatable(*kind),
            Fault::Overflow => Fault::Overflow,
            Fault::ZeroDivide => Fault::ZeroDivide,
            Fault::TextLong => Fault::TextLong,
            Fault::MembersFull => Fault::MembersFull,
            Fault::HeapFull => Fault::HeapFull,
            Fault::Depth => Fault::Depth,
            Fault::Turns => Fault::Turns,
        })
    }

    /// Appends the text of the fault, as UTF-8. Where memory is refused, `out` stays as it was.
    pub fn print_to(&self, out: &mut Vec<u8>) -> Result<(), AllocError>
        ensures appended { OnOk result (out.new.items ≡ out.old.items ++ encode_utf8_all (fault_text self.now)) }
        ensures refused { OnErr result (out.new.items ≡ out.old.items) }
    {
        let text = self.text(*out.allocator())?;
        out.extend_from_slice(text.as_bytes())
    }

    fn text(&self, alloc: Global) -> Result<String, AllocError>
        ensures { IfOk result (λ s. chars (string_bytes s) ≡ fault_text self.now) }
    {
        match self {
            Fault::NoMember(name) => label::with_text(alloc, "NoMember ", name),
            Fault::NoIndex => label::alone(alloc, "NoIndex"),
            Fault::NotIndexable(kind) => label::with_kind(alloc, "NotIndexable ", *kind),
            Fault::NotCallable(kind) => label::with_kind(alloc, "NotCallable ", *kind),
            Fault::WrongCount(parameters, count) => {
                label::with_numbers(alloc, "WrongCount ", *parameters, *count)
            }
            Fault::NoParameter(name) => label::with_text(alloc, "NoParameter ", name),
            Fault::NoOperator => label::alone(alloc, "NoOperator"),
            Fault::NoConvert => label::alone(alloc, "NoConvert"),
            Fault::NotCreatable(kind) => label::with_kind(alloc, "NotCreatable ", *kind),
            Fault::Overflow => label::alone(alloc, "Overflow"),
            Fault::ZeroDivide => label::alone(alloc, "ZeroDivide"),
            Fault::TextLong => label::alone(alloc, "TextLong"),
            Fault::MembersFull => label::alone(alloc, "MembersFull"),
            Fault::HeapFull => label::alone(alloc, "HeapFull"),
            Fault::Depth => label::alone(alloc, "Depth"),
            Fault::Turns => label::alone(alloc, "Turns"),
        }
    }
}
