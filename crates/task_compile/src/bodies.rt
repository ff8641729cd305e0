ghost use Rattle.std.specs.Prelude.{◌≡◌, length, IfOk, OnOk};
ghost use Rattle.task_compile.specs.CompiledScripts.{AreFunctionBodies, AreTaskBodies, IsFunctionBody, IsTaskBody};

use crate::names::{Scope, copied, number_at};
use crate::statements::compile_block;
use script_grammar::{Function, Task};
use sqlite_items::Items;
use std::alloc::{AllocError, Global};
use task_code::{FunctionCode, Steps};

/// The code of functions, in order; the first site of each has the number that stands at its place.
pub(crate) fn compile_functions(
    alloc: Global,
    scope: &mut Scope,
    functions: &[Function],
    starts: &[usize],
) -> Result<Items<FunctionCode>, AllocError>
    requires { length starts.now ≡ length functions.now }
    ensures code { IfOk result (AreFunctionBodies scope.old.items starts.now functions.now) }
    ensures items { OnOk result (scope.new.items ≡ scope.old.items) }
{
    let mut codes = Items::new(alloc);
    for (place, function) in functions.iter().enumerate() {
        codes.push(compile_function(alloc, scope, starts[place], function)?)?;
    }
    Ok(codes)
}

/// The code of a function, whose first locals are its parameters.
fn compile_function(
    alloc: Global,
    scope: &mut Scope,
    start: usize,
    function: &Function,
) -> Result<FunctionCode, AllocError>
    ensures code { IfOk result (IsFunctionBody scope.old.items start function.now) }
    ensures items { OnOk result (scope.new.items ≡ scope.old.items) }
{
    scope.locals = copied(alloc, function.params.as_slice())?;
    let mut site = number_at(start)?;
    let body = compile_block(alloc, scope, &mut site, &function.body)?;
    let params = copied(alloc, function.params.as_slice())?;
    Ok(FunctionCode { params, body })
}

/// The code of tasks, in order; the first site of each has the number that stands at its place.
pub(crate) fn compile_tasks(
    alloc: Global,
    scope: &mut Scope,
    tasks: &[Task],
    starts: &[usize],
) -> Result<Items<Steps>, AllocError>
    requires { length starts.now ≡ length tasks.now }
    ensures code { IfOk result (AreTaskBodies scope.old.items starts.now tasks.now) }
    ensures items { OnOk result (scope.new.items ≡ scope.old.items) }
{
    let mut codes = Items::new(alloc);
    for (place, task) in tasks.iter().enumerate() {
        codes.push(compile_task(alloc, scope, starts[place], task)?)?;
    }
    Ok(codes)
}

/// The code of a task, where no local is in scope at first.
fn compile_task(
    alloc: Global,
    scope: &mut Scope,
    start: usize,
    task: &Task,
) -> Result<Steps, AllocError>
    ensures code { IfOk result (IsTaskBody scope.old.items start task.now) }
    ensures items { OnOk result (scope.new.items ≡ scope.old.items) }
{
    scope.leave(0);
    let mut site = number_at(start)?;
    compile_block(alloc, scope, &mut site, &task.body)
}
