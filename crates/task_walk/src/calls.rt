ghost use Rattle.std.specs.Prelude.{suc, ◌+◌, ◌<◌, [], ◌∷◌, ◌++◌, length, map, sum};
ghost use Rattle.std.specs.List.{flat_map};
ghost use Rattle.task_code.specs.Codes.{calls_on};
ghost use Rattle.task_code.specs.Costs.{AtSite, node_cost, node_uses};
ghost use Rattle.task_walk.specs.Comings.{told};
ghost use Rattle.task_walk.specs.Parts.{new_of_act, invokes_act, creates_act};
ghost use Rattle.task_walk.specs.Tales.{AreProper, IsProperValue};
ghost use Rattle.task_walk.specs.Walks.{IsReady, Walked, ending_of};

use crate::arguments::place_values;
use crate::code::Code;
use crate::counts::{inner_levels, turns_after};
use crate::expressions::{value_of, with_arguments};
use crate::operations::draw_object;
use crate::printed::Printed;
use crate::statements::run_steps;
use crate::stop::Stop;
use crate::world::World;
use dyn_value::{DynText, Fault, Outcome, Value};
use sqlite_items::Items;
use std::alloc::Global;
use std::sync::Wait;
use task_code::{Flow, Frame, Node};

/// Makes an object by a function: the target and the arguments stand in one level.
#[cycle(walk)]
pub(crate) fn new_of<R: Wait, W: World>(
    rt: &R,
    alloc: Global,
    code: &Code,
    site: u32,
    target: &Node,
    args: &[Node],
    levels: u32,
    frame: &mut Frame,
    world: &mut W,
    printed: &mut Printed,
) -> Result<Value, Stop>
    requires ready { IsReady code.now (W.tale world.old) (AtSite site (suc (length args.now)) ∷
        (node_uses target.now ++ flat_map node_uses args.now)) (node_cost target.now + sum (map node_cost args.now) + 2)
        frame.old }
    ensures { Walked (W.tale world.old).by code.now.functions.now levels
        (λ a. new_of_act a site target.now args.now levels frame.old) IsProperValue
        (node_cost target.now + sum (map node_cost args.now) + 2) (ending_of result) frame.old frame.new
        (told (W.tale world.old) printed.old) (told (W.tale world.new) printed.new) (W.answered world.old)
        (W.answered world.new) }
{
    let inner = inner_levels(levels)?;
    let mut operands = Items::new(alloc);
    let first = value_of(rt, alloc, code, target, inner, frame, world, printed)?;
    operands.push(first)?;
    let operands = with_arguments(
        rt, alloc, code, operands, args, inner, frame, world, printed,
    )?;
    create(
        rt, alloc, code, site, operands, levels, frame, world, printed,
    )
}

/// Invokes the first of these operands with the others.
#[cycle(walk)]
pub(crate) fn invoke<R: Wait, W: World>(
    rt: &R,
    alloc: Global,
    code: &Code,
    site: u32,
    operands: Items<Value>,
    levels: u32,
    frame: &mut Frame,
    world: &mut W,
    printed: &mut Printed,
) -> Result<Value, Stop>
    requires some { 0 < length operands }
    requires operands { AreProper (W.tale world.old).by operands }
    requires ready { IsReady code.now (W.tale world.old) (AtSite site (length operands) ∷ []) (1) frame.old }
    ensures { Walked (W.tale world.old).by code.now.functions.now levels
        (λ a. invokes_act a site operands levels frame.old) IsProperValue (1) (ending_of result) frame.old frame.new
        (told (W.tale world.old) printed.old) (told (W.tale world.new) printed.new) (W.answered world.old)
        (W.answered world.new) }
{
    match world.operate(rt, alloc, site, operands.as_slice())? {
        Outcome::Value(value) => Ok(value),
        Outcome::Call(function) => {
            let (_, args) = operands.as_slice().split_at(1);
            call(
                rt,
                alloc,
                code,
                function,
                code.names_of(site),
                args,
                levels,
                frame,
                world,
                printed,
            )
        }
        Outcome::Make(_) => Err(Stop::Fault(Fault::NoOperator)),
        Outcome::Fault(fault) => Err(Stop::Fault(fault)),
    }
}

/// Makes an object by the first of these operands, with the others.
#[cycle(walk)]
fn create<R: Wait, W: World>(
    rt: &R,
    alloc: Global,
    code: &Code,
    site: u32,
    mut operands: Items<Value>,
    levels: u32,
    frame: &mut Frame,
    world: &mut W,
    printed: &mut Printed,
) -> Result<Value, Stop>
    requires some { 0 < length operands }
    requires operands { AreProper (W.tale world.old).by operands }
    requires ready { IsReady code.now (W.tale world.old) (AtSite site (length operands) ∷ []) (2) frame.old }
    ensures { Walked (W.tale world.old).by code.now.functions.now levels
        (λ a. creates_act a site operands levels frame.old) IsProperValue (2) (ending_of result) frame.old frame.new
        (told (W.tale world.old) printed.old) (told (W.tale world.new) printed.new) (W.answered world.old)
        (W.answered world.new) }
{
    match world.operate(rt, alloc, site, operands.as_slice())? {
        Outcome::Make(function) => {
            let object = draw_object(code, frame, world)?;
            operands.set(0, Value::Obj(object));
            call(
                rt,
                alloc,
                code,
                function,
                code.names_of(site),
                operands.as_slice(),
                levels,
                frame,
                world,
                printed,
            )?;
            Ok(Value::Obj(object))
        }
        Outcome::Value(_) => Err(Stop::Fault(Fault::NoOperator)),
        Outcome::Call(_) => Err(Stop::Fault(Fault::NoOperator)),
        Outcome::Fault(fault) => Err(Stop::Fault(fault)),
    }
}

/// Calls a function: a turn is counted, and then its level is opened.
#[cycle(walk)]
fn call<R: Wait, W: World>(
    rt: &R,
    alloc: Global,
    code: &Code,
    function: u32,
    names: &[DynText],
    args: &[Value],
    levels: u32,
    frame: &mut Frame,
    world: &mut W,
    printed: &mut Printed,
) -> Result<Value, Stop>
    requires function { function < length code.now.functions.now }
    requires args { AreProper (W.tale world.old).by args.now }
    requires ready { IsReady code.now (W.tale world.old) ([]) (0) frame.old }
    ensures { Walked (W.tale world.old).by code.now.functions.now levels
        (λ a. calls_on a function (record { count = length args.now; names = names.now }) args.now levels frame.old)
        IsProperValue (0) (ending_of result) frame.old frame.new
        (told (W.tale world.old) printed.old) (told (W.tale world.new) printed.new) (W.answered world.old)
        (W.answered world.new) }
{
    frame.turns = turns_after(frame.turns)?;
    let inner = inner_levels(levels)?;
    let callee = &code.functions[function as usize];
    let locals = place_values(alloc, callee.params.as_slice(), names, args)?;
    let mut own = Frame {
        turns: frame.turns,
        locals,
    };
    let ended = run_steps(
        rt,
        alloc,
        code,
        callee.body.0.as_slice(),
        inner,
        &mut own,
        world,
        printed,
    );
    frame.turns = own.turns;
    match ended? {
        Flow::Next => Ok(Value::Nil),
        Flow::Returned(value) => Ok(value),
    }
}
