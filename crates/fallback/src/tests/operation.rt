//! Operations as the tables of the tests write them.
use crate::Script;
use dyn_value::{BinOp, DynText, Kind, UnOp, Value};
use sqlite_items::Items;
use standard_binders::{Binder, CallInfo, FunTable};
use std::alloc::Global;
use std::test::Fail;

/// A binder as a table writes it: with the name of a member, and with the count and the names of arguments.
#[derive(Clone, Copy, Debug)]
pub(crate) enum Asked {
    Get(&'static str),
    Set(&'static str),
    Delete(&'static str),
    GetIndex,
    SetIndex,
    DeleteIndex,
    Invoke(u32, &'static [&'static str]),
    InvokeMember(&'static str, u32, &'static [&'static str]),
    Create(u32, &'static [&'static str]),
    Convert(Kind),
    Unary(UnOp),
    Binary(BinOp),
}

/// An operand as a table writes it.
#[derive(Clone, Copy)]
pub(crate) enum Operand {
    Nil,
    Bool,
    Int,
    Text(&'static str),
    Fun(u32),
    Obj,
}

/// An operation: what is asked of which operands. The target is of the class with these names, where it is an object.
#[derive(Clone, Copy)]
pub(crate) struct Operation<'a> {
    pub asked: Asked,
    pub operands: &'a [Operand],
    pub names: &'a [&'static str],
}

/// A row of a table: what is asked of which operands, the names of the class, and the text of the bound.
pub(crate) type Row = (
    Asked,
    &'static [Operand],
    &'static [&'static str],
    &'static str,
);

/// A name of 64 bytes, the most that a name may have.
pub(crate) const LONGEST: &str = "n012345678901234567890123456789012345678901234567890123456789abc";

/// A text of 65 bytes, which names no member.
pub(crate) const TOO_LONG: &str =
    "n012345678901234567890123456789012345678901234567890123456789abcd";

/// The names of the parameters of the functions of the tests.
static PARAMETERS: [&[&str]; 5] = [
    &[],
    &["a"],
    &["a", "b"],
    &["a", "b", "c"],
    &[
        "p0", "p1", "p2", "p3", "p4", "p5", "p6", "p7", "p8", "p9", "p10", "p11", "p12", "p13",
        "p14", "p15",
    ],
];

/// The language over these functions.
pub(crate) fn script(alloc: Global) -> Result<Script, Fail> {
    let mut params = Items::new(alloc);
    for names in &PARAMETERS {
        let mut parameters = Items::new(alloc);
        for name in *names {
            parameters.push(text(alloc, name)?)?;
        }
        params.push(parameters)?;
    }
    Ok(Script::make(FunTable { params }))
}

pub(crate) fn text(alloc: Global, characters: &str) -> Result<DynText, Fail> {
    Ok(DynText::from_str(alloc, characters)?.ok_or("too long")?)
}

fn call_info(alloc: Global, count: u32, names: &[&str]) -> Result<CallInfo, Fail> {
    let mut texts = Vec::new(alloc);
    for name in names {
        texts.push(text(alloc, name)?)?;
    }
    Ok(CallInfo::make(count, texts).ok().ok_or("no arguments")?)
}

/// The binder that is asked.
pub(crate) fn binder(alloc: Global, asked: Asked) -> Result<Binder, Fail> {
    let ignore_case = false;
    Ok(match asked {
        Asked::Get(name) => Binder::GetMember {
            name: text(alloc, name)?,
            ignore_case,
        },
        Asked::Set(name) => Binder::SetMember {
            name: text(alloc, name)?,
            ignore_case,
        },
        Asked::Delete(name) => Binder::DeleteMember {
            name: text(alloc, name)?,
            ignore_case,
        },
        Asked::GetIndex => Binder::GetIndex,
        Asked::SetIndex => Binder::SetIndex,
        Asked::DeleteIndex => Binder::DeleteIndex,
        Asked::Invoke(count, names) => Binder::Invoke {
            info: call_info(alloc, count, names)?,
        },
        Asked::InvokeMember(name, count, names) => Binder::InvokeMember {
            name: text(alloc, name)?,
            ignore_case,
            info: call_info(alloc, count, names)?,
        },
        Asked::Create(count, names) => Binder::CreateInstance {
            info: call_info(alloc, count, names)?,
        },
        Asked::Convert(to) => Binder::Convert { to },
        Asked::Unary(op) => Binder::UnaryOperation { op },
        Asked::Binary(op) => Binder::BinaryOperation { op },
    })
}

/// The values of the operands.
pub(crate) fn values(alloc: Global, operands: &[Operand]) -> Result<Vec<Value>, Fail> {
    let mut values = Vec::new(alloc);
    for operand in operands {
        values.push(value(alloc, *operand)?)?;
    }
    Ok(values)
}

fn value(alloc: Global, operand: Operand) -> Result<Value, Fail> {
    Ok(match operand {
        Operand::Nil => Value::Nil,
        Operand::Bool => Value::Bool(true),
        Operand::Int => Value::Int(-7),
        Operand::Text(characters) => Value::Text(text(alloc, characters)?),
        Operand::Fun(number) => Value::Fun(number),
        Operand::Obj => Value::Obj(0),
    })
}
