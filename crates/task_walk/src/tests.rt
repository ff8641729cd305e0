ghost use Rattle.std.specs.Prelude.{◌≡◌, [], length, IfOk};
ghost use Rattle.task_code.specs.Costs.{steps_cost, steps_uses};

mod silent;

use crate::{
    Code, Ended, Printed, catches, local_value, place_values, put_local, run_code, text_of,
};
use dyn_value::{DynText, Fault, Kind, Value};
use silent::Silent;
use sqlite_items::Items;
use standard_binders::Binder;
use std::alloc::{AllocError, Global};
use std::sync::Wait;
use std::test::Fail;
use task_code::{Step, Steps};

/// Names of parameters, names of the last arguments, the arguments, and the values of the parameters; -1 stands for
/// nil.
static CALLS: [(&[&str], &[&str], &[i64], &[i64]); 8] = [
    (&[], &[], &[], &[]),
    (&["a"], &[], &[1], &[1]),
    (&["a", "b"], &[], &[1, 2], &[1, 2]),
    (&["a", "b"], &["b"], &[1, 2], &[1, 2]),
    (&["a", "b", "c"], &["c", "b"], &[1, 2, 3], &[1, 3, 2]),
    (&["a", "b"], &["b", "a"], &[1, 2], &[2, 1]),
    (&["a", "b"], &["b"], &[1], &[-1, 1]),
    (&["a", "b"], &[], &[1], &[1, -1]),
];

/// Locals that are set one after the other, each by its number and value, and what stands there then; -1 stands for
/// nil.
static LOCALS: [(&[(u32, i64)], &[i64]); 5] = [
    (&[], &[]),
    (&[(0, 1)], &[1]),
    (&[(0, 1), (1, 2), (0, 3)], &[3, 2]),
    (&[(2, 1)], &[-1, -1, 1]),
    (&[(3, 1), (1, 2)], &[-1, 2, -1, 1]),
];

fn text(alloc: Global, characters: &str) -> Result<DynText, Fail> {
    Ok(DynText::from_str(alloc, characters)?.ok_or("too long")?)
}

fn texts(alloc: Global, names: &[&str]) -> Result<Items<DynText>, Fail> {
    let mut texts = Items::new(alloc);
    for name in names {
        texts.push(text(alloc, *name)?)?;
    }
    Ok(texts)
}

fn values(alloc: Global, numbers: &[i64]) -> Result<Items<Value>, Fail> {
    let mut values = Items::new(alloc);
    for number in numbers {
        values.push(Value::Int(*number))?;
    }
    Ok(values)
}

fn are_numbers(values: &[Value], numbers: &[i64]) -> bool {
    values.len() == numbers.len()
        && values.iter().zip(numbers).all(|(value, number)| match value {
            Value::Nil => *number == -1,
            Value::Int(n) => *n == *number,
            _ => false,
        })
}

#[test]
fn named_arguments_take_the_places_of_their_parameters(rt: HostRuntime) -> Result<(), Fail> {
    let alloc = rt.alloc();
    for &(params, names, args, want) in &CALLS {
        let params = texts(alloc, params)?;
        let names = texts(alloc, names)?;
        let args = values(alloc, args)?;
        let placed = place_values(alloc, params.as_slice(), names.as_slice(), args.as_slice())?;
        assert!(rt; are_numbers(placed.as_slice(), want), "{want:?}");
    }
    Ok(())
}

#[test]
fn locals_are_nil_until_they_are_set(rt: HostRuntime) -> Result<(), Fail> {
    let alloc = rt.alloc();
    for &(set, want) in &LOCALS {
        let mut locals = Items::new(alloc);
        for &(number, value) in set {
            put_local(&mut locals, number, Value::Int(value))?;
        }
        assert!(rt; are_numbers(locals.as_slice(), want), "{want:?}");
        let past = local_value(locals.as_slice(), 9)?;
        assert!(rt; past.same(&Value::Nil));
    }
    Ok(())
}

#[test]
fn every_fault_is_caught_but_depth_and_turns(rt: HostRuntime) -> Result<(), Fail> {
    assert!(rt; !catches(&Fault::Depth));
    assert!(rt; !catches(&Fault::Turns));
    assert!(rt; catches(&Fault::HeapFull));
    assert!(rt; catches(&Fault::NoOperator));
    assert!(rt; catches(&Fault::NotCallable(Kind::Int)));
    Ok(())
}

#[test]
fn texts_of_caught_faults(rt: HostRuntime) -> Result<(), Fail> {
    let alloc = rt.alloc();
    assert!(rt; text_of(alloc, &Fault::NoOperator)?.as_str() == "NoOperator");
    assert!(rt; text_of(alloc, &Fault::NotCallable(Kind::Int))?.as_str() == "NotCallable Int");
    Ok(())
}

/// So many blocks, each the first one of a `try` in the next.
fn nested(alloc: Global, count: u32) -> Result<Steps, AllocError>
    ensures uses { IfOk result (λ b. steps_uses b ≡ []) }
    ensures cost { IfOk result (λ b. steps_cost b ≡ 0) }
{
    let mut block = Steps(Items::new(alloc));
    'nesting: for _ in 0..count {
        let mut outer = Items::new(alloc);
        outer.push(Step::Try {
            body: block,
            local: 0,
            caught: Steps(Items::new(alloc)),
        })?;
        block = Steps(outer);
    }
    Ok(block)
}

/// Whether the task ended by `Depth`, with this many blocks one in the other.
fn is_too_deep<R: Wait>(rt: &R, alloc: Global, code: &Code, count: u32) -> Result<bool, AllocError>
    requires sites { length code.now.sites.now ≡ 1 }
    requires functions { code.now.functions.now ≡ [] }
{
    let mut world = Silent { code: *code };
    let mut printed = Printed::new(alloc);
    let body = nested(alloc, count)?;
    let ended = run_code(rt, alloc, code, &body, 0, &mut world, &mut printed)?;
    Ok(matches!(ended, Ended::Faulted(Fault::Depth)))
}

#[test]
fn blocks_open_levels_and_depth_is_not_caught(rt: HostRuntime) -> Result<(), Fail> {
    let alloc = rt.alloc();
    let code = Code {
        binders: &[Binder::GetIndex],
        sites: &[0],
        functions: &[],
    };
    assert!(rt; !is_too_deep(&rt, alloc, &code, 0)?);
    assert!(rt; !is_too_deep(&rt, alloc, &code, 256)?);
    assert!(rt; is_too_deep(&rt, alloc, &code, 257)?);
    Ok(())
}
