ghost use Rattle.std.specs.Prelude.{◌+◌, ◌<◌, [], ◌∷◌, length, map, sum};
ghost use Rattle.std.specs.List.{flat_map};
ghost use Rattle.task_code.specs.Codes.{list_act, operands_act, node_act, head_act, suffixes_act};
ghost use Rattle.task_code.specs.Costs.{AtSite, node_cost, node_uses, head_cost, head_uses};
ghost use Rattle.task_walk.specs.Comings.{told};
ghost use Rattle.task_walk.specs.Parts.{AreAfter, AreValues, part_act, part_cost, part_uses, operation_act, suffix_act};
ghost use Rattle.task_walk.specs.Parts.{suffix_cost, suffix_uses};
ghost use Rattle.task_walk.specs.Tales.{AreProper, IsProperValue};
ghost use Rattle.task_walk.specs.Walks.{IsReady, Walked, ending_of};

use crate::calls::{invoke, new_of};
use crate::code::Code;
use crate::counts::{inner_levels, levels_of_part};
use crate::locals::local_value;
use crate::operations::{ask, draw_object};
use crate::part::Part;
use crate::printed::Printed;
use crate::stop::Stop;
use crate::world::World;
use dyn_value::Value;
use sqlite_items::Items;
use std::alloc::Global;
use std::sync::Wait;
use task_code::{Frame, Node, NodeHead, NodeSuffix};

/// Evaluates an expression, with so many levels left.
#[cycle(walk)]
pub(crate) fn value_of<R: Wait, W: World>(
    rt: &R,
    alloc: Global,
    code: &Code,
    node: &Node,
    levels: u32,
    frame: &mut Frame,
    world: &mut W,
    printed: &mut Printed,
) -> Result<Value, Stop>
    requires ready { IsReady code.now (W.tale world.old) (node_uses node.now) (node_cost node.now) frame.old }
    ensures { Walked (W.tale world.old).by code.now.functions.now levels
        (λ a. node_act a node.now levels frame.old) IsProperValue (node_cost node.now) (ending_of result) frame.old
        frame.new
        (told (W.tale world.old) printed.old) (told (W.tale world.new) printed.new) (W.answered world.old)
        (W.answered world.new) }
{
    let head = head_value(rt, alloc, code, &node.head, levels, frame, world, printed)?;
    suffixed(
        rt,
        alloc,
        code,
        head,
        node.suffixes.as_slice(),
        levels,
        frame,
        world,
        printed,
    )
}

/// Evaluates suffixes, one of the other, from this value on.
#[cycle(walk)]
fn suffixed<R: Wait, W: World>(
    rt: &R,
    alloc: Global,
    code: &Code,
    target: Value,
    suffixes: &[NodeSuffix],
    levels: u32,
    frame: &mut Frame,
    world: &mut W,
    printed: &mut Printed,
) -> Result<Value, Stop>
    requires target { IsProperValue (W.tale world.old).by target }
    requires ready { IsReady code.now (W.tale world.old) (flat_map suffix_uses suffixes.now)
        (sum (map suffix_cost suffixes.now)) frame.old }
    ensures { Walked (W.tale world.old).by code.now.functions.now levels
        (λ a. suffixes_act (map (suffix_act a) suffixes.now) levels target frame.old) IsProperValue
        (sum (map suffix_cost suffixes.now)) (ending_of result) frame.old frame.new
        (told (W.tale world.old) printed.old) (told (W.tale world.new) printed.new) (W.answered world.old)
        (W.answered world.new) }
{
    let mut value = target;
    for suffix in suffixes {
        value = suffix_value(
            rt, alloc, code, value, suffix, levels, frame, world, printed,
        )?;
    }
    Ok(value)
}

/// Evaluates what an expression begins with.
#[cycle(walk)]
fn head_value<R: Wait, W: World>(
    rt: &R,
    alloc: Global,
    code: &Code,
    head: &NodeHead,
    levels: u32,
    frame: &mut Frame,
    world: &mut W,
    printed: &mut Printed,
) -> Result<Value, Stop>
    requires ready { IsReady code.now (W.tale world.old) (head_uses head.now) (head_cost head.now) frame.old }
    ensures { Walked (W.tale world.old).by code.now.functions.now levels
        (λ a. head_act a head.now levels frame.old) IsProperValue (head_cost head.now) (ending_of result) frame.old
        frame.new
        (told (W.tale world.old) printed.old) (told (W.tale world.new) printed.new) (W.answered world.old)
        (W.answered world.new) }
{
    match head {
        NodeHead::Literal(value) => Ok(value.copy()?),
        NodeHead::Local(number) => Ok(local_value(frame.locals.as_slice(), *number)?),
        NodeHead::Unary { site, value } => {
            let inner = inner_levels(levels)?;
            let operand = Part {
                node: value.get(),
                opens: false,
            };
            operation(
                rt,
                alloc,
                code,
                *site,
                &[operand],
                inner,
                frame,
                world,
                printed,
            )
        }
        NodeHead::Binary { site, left, right } => {
            let inner = inner_levels(levels)?;
            let first = Part {
                node: left.get(),
                opens: false,
            };
            let second = Part {
                node: right.get(),
                opens: false,
            };
            operation(
                rt,
                alloc,
                code,
                *site,
                &[first, second],
                inner,
                frame,
                world,
                printed,
            )
        }
        NodeHead::New => Ok(Value::Obj(draw_object(code, frame, world)?)),
        NodeHead::NewOf { site, target, args } => {
            new_of(
                rt,
                alloc,
                code,
                *site,
                target.get(),
                args.as_slice(),
                levels,
                frame,
                world,
                printed,
            )
        }
    }
}

/// Evaluates parts, and makes the operation of a site on what they come to.
#[cycle(walk)]
pub(crate) fn operation<R: Wait, W: World>(
    rt: &R,
    alloc: Global,
    code: &Code,
    site: u32,
    parts: &[Part],
    levels: u32,
    frame: &mut Frame,
    world: &mut W,
    printed: &mut Printed,
) -> Result<Value, Stop>
    requires ready { IsReady code.now (W.tale world.old) (AtSite site (length parts.now) ∷ flat_map part_uses parts.now)
        (sum (map part_cost parts.now) + 1) frame.old }
    ensures { Walked (W.tale world.old).by code.now.functions.now levels
        (λ a. operation_act a site parts.now levels frame.old) IsProperValue (sum (map part_cost parts.now) + 1)
        (ending_of result) frame.old frame.new
        (told (W.tale world.old) printed.old) (told (W.tale world.new) printed.new) (W.answered world.old)
        (W.answered world.new) }
{
    let operands = values_of_parts(rt, alloc, code, parts, levels, frame, world, printed)?;
    ask(rt, alloc, code, site, operands.as_slice(), frame, world)
}

/// Evaluates parts, from left to right.
#[cycle(walk)]
fn values_of_parts<R: Wait, W: World>(
    rt: &R,
    alloc: Global,
    code: &Code,
    parts: &[Part],
    levels: u32,
    frame: &mut Frame,
    world: &mut W,
    printed: &mut Printed,
) -> Result<Items<Value>, Stop>
    requires ready { IsReady code.now (W.tale world.old) (flat_map part_uses parts.now) (sum (map part_cost parts.now))
        frame.old }
    ensures { Walked (W.tale world.old).by code.now.functions.now levels
        (λ a. operands_act [] (map (part_act a) parts.now) levels frame.old) (AreValues (length parts.now))
        (sum (map part_cost parts.now)) (ending_of result) frame.old frame.new
        (told (W.tale world.old) printed.old) (told (W.tale world.new) printed.new) (W.answered world.old)
        (W.answered world.new) }
{
    let mut operands = Items::new(alloc);
    for part in parts {
        let inner = levels_of_part(part.opens, levels)?;
        let operand = value_of(rt, alloc, code, part.node, inner, frame, world, printed)?;
        operands.push(operand)?;
    }
    Ok(operands)
}

/// Evaluates arguments, from left to right, after what was evaluated before.
#[cycle(walk)]
pub(crate) fn with_arguments<R: Wait, W: World>(
    rt: &R,
    alloc: Global,
    code: &Code,
    operands: Items<Value>,
    args: &[Node],
    levels: u32,
    frame: &mut Frame,
    world: &mut W,
    printed: &mut Printed,
) -> Result<Items<Value>, Stop>
    requires operands { AreProper (W.tale world.old).by operands }
    requires ready { IsReady code.now (W.tale world.old) (flat_map node_uses args.now) (sum (map node_cost args.now))
        frame.old }
    ensures { Walked (W.tale world.old).by code.now.functions.now levels
        (λ a. operands_act operands (map (node_act a) args.now) levels frame.old)
        (AreAfter operands (length args.now)) (sum (map node_cost args.now)) (ending_of result) frame.old frame.new
        (told (W.tale world.old) printed.old) (told (W.tale world.new) printed.new) (W.answered world.old)
        (W.answered world.new) }
{
    let mut values = operands;
    for arg in args {
        let value = value_of(rt, alloc, code, arg, levels, frame, world, printed)?;
        values.push(value)?;
    }
    Ok(values)
}

/// The target of a call and its arguments, for which a level is opened where there are some.
#[cycle(walk)]
fn called_with<R: Wait, W: World>(
    rt: &R,
    alloc: Global,
    code: &Code,
    target: Value,
    args: &[Node],
    levels: u32,
    frame: &mut Frame,
    world: &mut W,
    printed: &mut Printed,
) -> Result<Items<Value>, Stop>
    requires target { IsProperValue (W.tale world.old).by target }
    requires ready { IsReady code.now (W.tale world.old) (flat_map node_uses args.now) (sum (map node_cost args.now))
        frame.old }
    ensures { Walked (W.tale world.old).by code.now.functions.now levels
        (λ a. list_act (target ∷ []) (map (node_act a) args.now) levels frame.old)
        (AreAfter (target ∷ []) (length args.now))
        (sum (map node_cost args.now)) (ending_of result) frame.old frame.new
        (told (W.tale world.old) printed.old) (told (W.tale world.new) printed.new) (W.answered world.old)
        (W.answered world.new) }
{
    let mut operands = Items::new(alloc);
    operands.push(target)?;
    if args.is_empty() {
        return Ok(operands);
    }
    let inner = inner_levels(levels)?;
    with_arguments(
        rt, alloc, code, operands, args, inner, frame, world, printed,
    )
}

/// Evaluates a suffix of this value.
#[cycle(walk)]
fn suffix_value<R: Wait, W: World>(
    rt: &R,
    alloc: Global,
    code: &Code,
    target: Value,
    suffix: &NodeSuffix,
    levels: u32,
    frame: &mut Frame,
    world: &mut W,
    printed: &mut Printed,
) -> Result<Value, Stop>
    requires target { IsProperValue (W.tale world.old).by target }
    requires ready { IsReady code.now (W.tale world.old) (suffix_uses suffix.now) (suffix_cost suffix.now) frame.old }
    ensures { Walked (W.tale world.old).by code.now.functions.now levels
        (λ a. suffix_act a suffix.now levels target frame.old) IsProperValue (suffix_cost suffix.now) (ending_of result)
        frame.old frame.new
        (told (W.tale world.old) printed.old) (told (W.tale world.new) printed.new) (W.answered world.old)
        (W.answered world.new) }
{
    match suffix {
        NodeSuffix::Member { site } => ask(rt, alloc, code, *site, &[target], frame, world),
        NodeSuffix::MemberCall { site, args } => {
            let mut operands = called_with(
                rt,
                alloc,
                code,
                target,
                args.as_slice(),
                levels,
                frame,
                world,
                printed,
            )?;
            let function = ask(rt, alloc, code, *site, operands.as_slice(), frame, world)?;
            operands.set(0, function);
            invoke(
                rt,
                alloc,
                code,
                *site + 1,
                operands,
                levels,
                frame,
                world,
                printed,
            )
        }
        NodeSuffix::Index { site, key } => {
            let inner = inner_levels(levels)?;
            let key = value_of(rt, alloc, code, key, inner, frame, world, printed)?;
            ask(rt, alloc, code, *site, &[target, key], frame, world)
        }
        NodeSuffix::Call { site, args } => {
            let operands = called_with(
                rt,
                alloc,
                code,
                target,
                args.as_slice(),
                levels,
                frame,
                world,
                printed,
            )?;
            invoke(
                rt, alloc, code, *site, operands, levels, frame, world, printed,
            )
        }
    }
}
