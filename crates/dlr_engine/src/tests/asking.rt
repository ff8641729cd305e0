//! Operations that are asked only where an engine answers them.
ghost use Rattle.std.specs.Prelude.{◌≡◌, true, length};
ghost use Rattle.std.specs.List.{AllByRecursion};
ghost use Rattle.dyn_value.specs.Proper.{IsProperIn};
ghost use Rattle.task_code.specs.Fits.{IsSite};
ghost use Rattle.script_program.specs.Plans.{plan_of};
ghost use Rattle.dlr_engine.specs.Engines.{run_of};
ghost use Rattle.dlr_engine.specs.Operations.{AreProper};
ghost use Rattle.dlr_engine.specs.Passes.{plan_in, IsPassOf, IsSamePass};

use crate::{Answer, Engine, Pass};
use dyn_value::Value;
use fallback::Script;
use meta_object::Language;
use script_program::{Program, ReadFault, read};
use std::alloc::{AllocError, Global};
use std::sync::Wait;
use std::test::Fail;

/// The most calls for which a pass is taken here.
const MOST_CALLS: u64 = 1 << 32;

/// Why there is no answer.
#[derive(Debug, Drop)]
pub(super) enum Refused {
    /// Memory was refused.
    Memory,
    /// The operation is none of the program, or the pass was taken for too many calls.
    Operation,
    /// What was answered is not what was wanted.
    Answer,
}

impl From<AllocError> for Refused {
    fn from(_: AllocError) -> Refused {
        Refused::Memory
    }
}

/// The program of a script.
pub(super) fn program_of(alloc: Global, script: &[u8]) -> Result<Program, Fail> {
    match read(alloc, script) {
        Ok(program) => Ok(program),
        Err(ReadFault::Refused(_)) => Err(Fail::new("no script")),
        Err(ReadFault::Memory) => Err(AllocError)?,
    }
}

/// Answers the operation of a site for a task, where it is one of the program.
pub(super) fn ask<'p, L: Language + Drop, R: Wait>(
    rt: &R,
    alloc: Global,
    engine: &Engine<'p, L>,
    pass: &mut Pass<'p>,
    task: u32,
    site: u32,
    operands: &[Value],
) -> Result<Answer, Refused>
    requires own { IsPassOf (run_of engine.now) pass.old }
    ensures own { IsPassOf (run_of engine.now) pass.new }
    ensures same { IsSamePass pass.old pass.new }
{
    if pass.calls() >= MOST_CALLS || !is_operation(engine, site, operands) {
        return Err(Refused::Operation);
    }
    Ok(engine.operate(rt, alloc, pass, task, site, operands)?)
}

/// Draws a number for a task.
pub(super) fn draw<'p>(
    engine: &Engine<'p, Script>,
    pass: &mut Pass<'p>,
    task: u32,
) -> Result<u64, Refused>
    requires own { IsPassOf (run_of engine.now) pass.old }
    ensures own { IsPassOf (run_of engine.now) pass.new }
    ensures same { IsSamePass pass.old pass.new }
{
    if pass.calls() >= MOST_CALLS {
        return Err(Refused::Operation);
    }
    Ok(engine.draw(pass, task)?)
}

/// Whether the site is one of the program, and the operands are of the run and suit it.
fn is_operation<L: Language + Drop>(engine: &Engine<'_, L>, site: u32, operands: &[Value]) -> bool
    ensures site { result ≡ true → IsSite (plan_in (run_of engine.now)) site (length operands.now) }
    ensures proper { result ≡ true → AreProper (run_of engine.now) operands.now }
{
    let program = engine.program();
    let functions = program.functions().len();
    is_site(program, site, operands.len()) && are_proper(functions, engine.limit(), operands)
}

/// Whether the site is one of the program, and has so many operands.
fn is_site(program: &Program, site: u32, count: usize) -> bool
    ensures { result ≡ true → IsSite (plan_of program.now) site count }
{
    (site as usize) < program.sites().len()
        && program.binder_of(site).operand_count() as usize == count
}

/// Whether they are one or two values, which may stand in a run of so many functions and objects.
fn are_proper(functions: usize, objects: u32, values: &[Value]) -> bool
    ensures { result ≡ true → AllByRecursion (IsProperIn functions objects) values.now }
{
    match values {
        [target] => is_proper(functions, objects, target),
        [target, argument] => {
            is_proper(functions, objects, target) && is_proper(functions, objects, argument)
        }
        _ => false,
    }
}

/// Whether the value, no text, may stand in a run of so many functions and objects.
fn is_proper(functions: usize, objects: u32, value: &Value) -> bool
    ensures { result ≡ true → IsProperIn functions objects value.now }
{
    match value {
        Value::Nil | Value::Bool(_) => true,
        Value::Int(number) => {
            let _number = *number;
            true
        }
        Value::Text(_) => false,
        Value::Fun(function) => (*function as usize) < functions && *function < 256,
        Value::Obj(object) => *object < objects && *object < 4096,
    }
}
