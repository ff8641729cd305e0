ghost use Rattle.std.specs.Prelude.{suc, ◌+◌, ◌<◌, [], ◌∷◌, ◌++◌, map, sum};
ghost use Rattle.std.specs.List.{flat_map};
ghost use Rattle.task_code.specs.Acts.{Fails, and_then, catches, chosen, on_fault};
ghost use Rattle.task_code.specs.Codes.{tests, block_act, body_act, loops, step_act, steps_act};
ghost use Rattle.task_code.specs.Costs.{AtSite, node_cost, node_uses, steps_cost, steps_uses, step_cost, step_uses};
ghost use Rattle.task_walk.specs.Comings.{told};
ghost use Rattle.task_walk.specs.Parts.{caught_act, optional_cost, optional_uses, optional_act};
ghost use Rattle.task_walk.specs.Tales.{IsProperValue, IsProperFault};
ghost use Rattle.task_walk.specs.Walks.{IsReady, Walked, IsProperFlow, ending_of};

use crate::caught::{catches, text_of};
use crate::code::Code;
use crate::counts::{inner_levels, is_true, turns_after};
use crate::expressions::{operation, value_of};
use crate::locals::put_local;
use crate::operations::ask;
use crate::part::Part;
use crate::printed::Printed;
use crate::stop::Stop;
use crate::world::World;
use dyn_value::{Fault, Value};
use std::alloc::Global;
use std::sync::Wait;
use task_code::{Flow, Frame, Node, Step, Steps};

/// Executes statements, in order.
#[cycle(walk)]
pub(crate) fn run_steps<R: Wait, W: World>(
    rt: &R,
    alloc: Global,
    code: &Code,
    steps: &[Step],
    levels: u32,
    frame: &mut Frame,
    world: &mut W,
    printed: &mut Printed,
) -> Result<Flow, Stop>
    requires ready { IsReady code.now (W.tale world.old) (flat_map step_uses steps.now) (sum (map step_cost steps.now))
        frame.old }
    ensures { Walked (W.tale world.old).by code.now.functions.now levels
        (λ a. steps_act (map (step_act a) steps.now) levels frame.old) IsProperFlow (sum (map step_cost steps.now))
        (ending_of result) frame.old frame.new
        (told (W.tale world.old) printed.old) (told (W.tale world.new) printed.new) (W.answered world.old)
        (W.answered world.new) }
{
    for step in steps {
        match run_step(rt, alloc, code, step, levels, frame, world, printed)? {
            Flow::Next => {}
            Flow::Returned(value) => return Ok(Flow::Returned(value)),
        }
    }
    Ok(Flow::Next)
}

/// Executes a block, inside one more level.
#[cycle(walk)]
fn run_block<R: Wait, W: World>(
    rt: &R,
    alloc: Global,
    code: &Code,
    block: &Steps,
    levels: u32,
    frame: &mut Frame,
    world: &mut W,
    printed: &mut Printed,
) -> Result<Flow, Stop>
    requires ready { IsReady code.now (W.tale world.old) (steps_uses block.now) (steps_cost block.now) frame.old }
    ensures { Walked (W.tale world.old).by code.now.functions.now levels
        (λ a. block_act (body_act a block.now) levels frame.old) IsProperFlow (steps_cost block.now) (ending_of result)
        frame.old frame.new
        (told (W.tale world.old) printed.old) (told (W.tale world.new) printed.new) (W.answered world.old)
        (W.answered world.new) }
{
    let inner = inner_levels(levels)?;
    run_steps(
        rt,
        alloc,
        code,
        block.0.as_slice(),
        inner,
        frame,
        world,
        printed,
    )
}

/// Executes a loop: a turn is counted before its body is entered.
#[cycle(walk)]
fn run_while<R: Wait, W: World>(
    rt: &R,
    alloc: Global,
    code: &Code,
    site: u32,
    test: &Node,
    body: &Steps,
    levels: u32,
    frame: &mut Frame,
    world: &mut W,
    printed: &mut Printed,
) -> Result<Flow, Stop>
    requires ready { IsReady code.now (W.tale world.old) (AtSite site 1 ∷ (node_uses test.now ++ steps_uses body.now))
        (node_cost test.now + 1 + steps_cost body.now) frame.old }
    ensures { Walked (W.tale world.old).by code.now.functions.now levels
        (λ a. loops (suc frame.old.turns) (tests a site test.now levels) (block_act (body_act a body.now) levels)
        frame.old) IsProperFlow (node_cost test.now + 1 + steps_cost body.now) (ending_of result) frame.old frame.new
        (told (W.tale world.old) printed.old) (told (W.tale world.new) printed.new) (W.answered world.old)
        (W.answered world.new) }
{
    'rounds: loop {
        let value = test_of(rt, alloc, code, site, test, levels, frame, world, printed)?;
        if !is_true(&value) {
            return Ok(Flow::Next);
        }
        frame.turns = turns_after(frame.turns)?;
        match run_block(rt, alloc, code, body, levels, frame, world, printed)? {
            Flow::Next => {}
            Flow::Returned(answer) => return Ok(Flow::Returned(answer)),
        }
    }
}

/// Makes the operation IsTrue of a test.
#[cycle(walk)]
fn test_of<R: Wait, W: World>(
    rt: &R,
    alloc: Global,
    code: &Code,
    site: u32,
    test: &Node,
    levels: u32,
    frame: &mut Frame,
    world: &mut W,
    printed: &mut Printed,
) -> Result<Value, Stop>
    requires ready { IsReady code.now (W.tale world.old) (AtSite site 1 ∷ node_uses test.now) (node_cost test.now + 1)
        frame.old }
    ensures { Walked (W.tale world.old).by code.now.functions.now levels
        (λ a. tests a site test.now levels frame.old) IsProperValue (node_cost test.now + 1) (ending_of result)
        frame.old frame.new
        (told (W.tale world.old) printed.old) (told (W.tale world.new) printed.new) (W.answered world.old)
        (W.answered world.new) }
{
    let value = value_of(rt, alloc, code, test, levels, frame, world, printed)?;
    ask(rt, alloc, code, site, &[value], frame, world)
}

/// Executes one of two blocks, by a test.
#[cycle(walk)]
fn run_if<R: Wait, W: World>(
    rt: &R,
    alloc: Global,
    code: &Code,
    site: u32,
    test: &Node,
    yes: &Steps,
    no: &Option<Steps>,
    levels: u32,
    frame: &mut Frame,
    world: &mut W,
    printed: &mut Printed,
) -> Result<Flow, Stop>
    requires ready { IsReady code.now (W.tale world.old) (AtSite site 1 ∷
        (node_uses test.now ++ (steps_uses yes.now ++ optional_uses no.now)))
        (node_cost test.now + 1 + steps_cost yes.now + optional_cost no.now) frame.old }
    ensures { Walked (W.tale world.old).by code.now.functions.now levels
        (λ a. and_then (tests a site test.now levels frame.old) (λ v after. chosen v
        (block_act (body_act a yes.now) levels after) (optional_act a no.now levels after))) IsProperFlow
        (node_cost test.now + 1 + steps_cost yes.now + optional_cost no.now) (ending_of result) frame.old frame.new
        (told (W.tale world.old) printed.old) (told (W.tale world.new) printed.new) (W.answered world.old)
        (W.answered world.new) }
{
    let value = test_of(rt, alloc, code, site, test, levels, frame, world, printed)?;
    if is_true(&value) {
        return run_block(rt, alloc, code, yes, levels, frame, world, printed);
    }
    match no {
        Some(block) => run_block(rt, alloc, code, block, levels, frame, world, printed),
        None => Ok(Flow::Next),
    }
}

/// Executes a block, and another where a fault of it is caught.
#[cycle(walk)]
fn run_try<R: Wait, W: World>(
    rt: &R,
    alloc: Global,
    code: &Code,
    body: &Steps,
    local: u32,
    caught: &Steps,
    levels: u32,
    frame: &mut Frame,
    world: &mut W,
    printed: &mut Printed,
) -> Result<Flow, Stop>
    requires ready { IsReady code.now (W.tale world.old) (steps_uses body.now ++ steps_uses caught.now)
        (steps_cost body.now + steps_cost caught.now) frame.old }
    ensures { Walked (W.tale world.old).by code.now.functions.now levels
        (λ a. catches (block_act (body_act a body.now) levels frame.old) (caught_act a local caught.now levels))
        IsProperFlow (steps_cost body.now + steps_cost caught.now) (ending_of result) frame.old frame.new
        (told (W.tale world.old) printed.old) (told (W.tale world.new) printed.new) (W.answered world.old)
        (W.answered world.new) }
{
    match run_block(rt, alloc, code, body, levels, frame, world, printed) {
        Ok(flow) => Ok(flow),
        Err(Stop::Fault(fault)) => run_caught(
            rt, alloc, code, fault, local, caught, levels, frame, world, printed,
        ),
        Err(Stop::Memory) => Err(Stop::Memory),
    }
}

/// Executes the block of a fault, whose text the local of this number has; a fault that is not caught goes on.
#[cycle(walk)]
fn run_caught<R: Wait, W: World>(
    rt: &R,
    alloc: Global,
    code: &Code,
    fault: Fault,
    local: u32,
    caught: &Steps,
    levels: u32,
    frame: &mut Frame,
    world: &mut W,
    printed: &mut Printed,
) -> Result<Flow, Stop>
    requires fault { IsProperFault fault }
    requires ready { IsReady code.now (W.tale world.old) (steps_uses caught.now) (steps_cost caught.now) frame.old }
    ensures { Walked (W.tale world.old).by code.now.functions.now levels
        (λ a. on_fault (caught_act a local caught.now levels) (Fails fault) frame.old) IsProperFlow
        (steps_cost caught.now) (ending_of result) frame.old frame.new
        (told (W.tale world.old) printed.old) (told (W.tale world.new) printed.new) (W.answered world.old)
        (W.answered world.new) }
{
    if !catches(&fault) {
        return Err(Stop::Fault(fault));
    }
    let text = text_of(alloc, &fault)?;
    put_local(&mut frame.locals, local, Value::Text(text))?;
    run_block(rt, alloc, code, caught, levels, frame, world, printed)
}

/// Executes a statement.
#[cycle(walk)]
fn run_step<R: Wait, W: World>(
    rt: &R,
    alloc: Global,
    code: &Code,
    step: &Step,
    levels: u32,
    frame: &mut Frame,
    world: &mut W,
    printed: &mut Printed,
) -> Result<Flow, Stop>
    requires ready { IsReady code.now (W.tale world.old) (step_uses step.now) (step_cost step.now) frame.old }
    ensures { Walked (W.tale world.old).by code.now.functions.now levels
        (λ a. step_act a step.now levels frame.old) IsProperFlow (step_cost step.now) (ending_of result) frame.old
        frame.new
        (told (W.tale world.old) printed.old) (told (W.tale world.new) printed.new) (W.answered world.old)
        (W.answered world.new) }
{
    match step {
        Step::Set { local, value } => {
            let value = value_of(rt, alloc, code, value, levels, frame, world, printed)?;
            put_local(&mut frame.locals, *local, value)?;
            Ok(Flow::Next)
        }
        Step::SetMember {
            site,
            target,
            value,
        } => {
            let target = Part {
                node: target,
                opens: false,
            };
            let value = Part {
                node: value,
                opens: false,
            };
            operation(
                rt,
                alloc,
                code,
                *site,
                &[target, value],
                levels,
                frame,
                world,
                printed,
            )?;
            Ok(Flow::Next)
        }
        Step::SetIndex {
            site,
            target,
            key,
            value,
        } => {
            let target = Part {
                node: target,
                opens: false,
            };
            let key = Part {
                node: key,
                opens: true,
            };
            let value = Part {
                node: value,
                opens: false,
            };
            operation(
                rt,
                alloc,
                code,
                *site,
                &[target, key, value],
                levels,
                frame,
                world,
                printed,
            )?;
            Ok(Flow::Next)
        }
        Step::DeleteMember { site, target } => {
            let target = Part {
                node: target,
                opens: false,
            };
            operation(
                rt,
                alloc,
                code,
                *site,
                &[target],
                levels,
                frame,
                world,
                printed,
            )?;
            Ok(Flow::Next)
        }
        Step::DeleteIndex { site, target, key } => {
            let target = Part {
                node: target,
                opens: false,
            };
            let key = Part {
                node: key,
                opens: true,
            };
            operation(
                rt,
                alloc,
                code,
                *site,
                &[target, key],
                levels,
                frame,
                world,
                printed,
            )?;
            Ok(Flow::Next)
        }
        Step::If {
            site,
            test,
            yes,
            no,
        } => run_if(
            rt, alloc, code, *site, test, yes, no, levels, frame, world, printed,
        ),
        Step::While { site, test, body } => run_while(
            rt, alloc, code, *site, test, body, levels, frame, world, printed,
        ),
        Step::Return(value) => {
            let value = value_of(rt, alloc, code, value, levels, frame, world, printed)?;
            Ok(Flow::Returned(value))
        }
        Step::Print(value) => {
            let value = value_of(rt, alloc, code, value, levels, frame, world, printed)?;
            printed.push(value.to_text(alloc)?)?;
            Ok(Flow::Next)
        }
        Step::Try {
            body,
            local,
            caught,
        } => run_try(
            rt, alloc, code, body, *local, caught, levels, frame, world, printed,
        ),
        Step::Plain(value) => {
            value_of(rt, alloc, code, value, levels, frame, world, printed)?;
            Ok(Flow::Next)
        }
    }
}
