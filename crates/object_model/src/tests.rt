mod members;
mod plain;

use dyn_value::{BinOp, DynText, Kind, Outcome, UnOp, Value};
use standard_binders::{Binder, CallInfo};
use std::alloc::{AllocError, Global};
use std::test::Fail;

/// A value as the tables of these tests write it.
#[derive(Clone, Copy, Debug)]
enum Sample {
    Nil,
    Bool(bool),
    Int(i64),
    Text(&'static str),
    Fun(u32),
    Obj(u32),
}

/// An operation: its binder and its operands after the target. A call has the count and the names of its arguments,
/// which are nil.
#[derive(Clone, Copy, Debug)]
enum Act {
    Get(&'static str),
    Set(&'static str, Sample),
    Delete(&'static str),
    GetIndex(Sample),
    SetIndex(Sample, Sample),
    DeleteIndex(Sample),
    Invoke(u32, &'static [&'static str]),
    InvokeMember(&'static str, u32, &'static [&'static str]),
    Create(u32, &'static [&'static str]),
    Convert(Kind),
    Unary(UnOp),
    Binary(BinOp, Sample),
}

fn text(alloc: Global, characters: &str) -> Result<DynText, Fail> {
    Ok(DynText::from_str(alloc, characters)?.ok_or("too long")?)
}

fn value(alloc: Global, sample: Sample) -> Result<Value, Fail> {
    Ok(match sample {
        Sample::Nil => Value::Nil,
        Sample::Bool(truth) => Value::Bool(truth),
        Sample::Int(number) => Value::Int(number),
        Sample::Text(characters) => Value::Text(text(alloc, characters)?),
        Sample::Fun(number) => Value::Fun(number),
        Sample::Obj(number) => Value::Obj(number),
    })
}

fn call_info(alloc: Global, count: u32, names: &[&str]) -> Result<CallInfo, Fail> {
    let mut texts = Vec::new(alloc);
    for name in names {
        texts.push(text(alloc, *name)?)?;
    }
    match CallInfo::make(count, texts) {
        Ok(info) => Ok(info),
        Err(_) => Err("no call".into()),
    }
}

fn binder(alloc: Global, act: Act) -> Result<Binder, Fail> {
    Ok(match act {
        Act::Get(name) => Binder::GetMember {
            name: text(alloc, name)?,
            ignore_case: false,
        },
        Act::Set(name, _) => Binder::SetMember {
            name: text(alloc, name)?,
            ignore_case: false,
        },
        Act::Delete(name) => Binder::DeleteMember {
            name: text(alloc, name)?,
            ignore_case: false,
        },
        Act::GetIndex(_) => Binder::GetIndex,
        Act::SetIndex(..) => Binder::SetIndex,
        Act::DeleteIndex(_) => Binder::DeleteIndex,
        Act::Invoke(count, names) => Binder::Invoke {
            info: call_info(alloc, count, names)?,
        },
        Act::InvokeMember(name, count, names) => Binder::InvokeMember {
            name: text(alloc, name)?,
            ignore_case: false,
            info: call_info(alloc, count, names)?,
        },
        Act::Create(count, names) => Binder::CreateInstance {
            info: call_info(alloc, count, names)?,
        },
        Act::Convert(to) => Binder::Convert { to },
        Act::Unary(op) => Binder::UnaryOperation { op },
        Act::Binary(op, _) => Binder::BinaryOperation { op },
    })
}

/// Adds the operands after the target.
fn push_operands(alloc: Global, act: Act, operands: &mut Vec<Value>) -> Result<(), Fail> {
    match act {
        Act::Set(_, sample)
        | Act::GetIndex(sample)
        | Act::DeleteIndex(sample)
        | Act::Binary(_, sample) => operands.push(value(alloc, sample)?)?,
        Act::SetIndex(key, sample) => {
            operands.push(value(alloc, key)?)?;
            operands.push(value(alloc, sample)?)?;
        }
        Act::Invoke(count, _) | Act::InvokeMember(_, count, _) | Act::Create(count, _) => {
            for _ in 0..count {
                operands.push(Value::Nil)?;
            }
        }
        Act::Get(_) | Act::Delete(_) | Act::Convert(_) | Act::Unary(_) => {}
    }
    Ok(())
}

/// The quoted text of a value, the text of a fault, or `call` or `make` with the number of the function.
fn printed(alloc: Global, outcome: &Outcome) -> Result<Vec<u8>, AllocError> {
    let mut out = Vec::new(alloc);
    match outcome {
        Outcome::Value(value) => value.quote_to(&mut out)?,
        Outcome::Fault(fault) => fault.print_to(&mut out)?,
        Outcome::Call(number) => {
            let text = format!(in alloc; "call {number}")?;
            out.extend_from_slice(text.as_bytes())?;
        }
        Outcome::Make(number) => {
            let text = format!(in alloc; "make {number}")?;
            out.extend_from_slice(text.as_bytes())?;
        }
    }
    Ok(out)
}
