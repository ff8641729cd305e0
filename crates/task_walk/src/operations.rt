ghost use Rattle.std.specs.Prelude.{ℕ, List, [], ◌∷◌, length};
ghost use Rattle.task_code.specs.Codes.{asks};
ghost use Rattle.task_code.specs.Costs.{AtSite};
ghost use Rattle.task_walk.specs.Comings.{told};
ghost use Rattle.task_walk.specs.Parts.{draws, IsProperNumber};
ghost use Rattle.task_walk.specs.Tales.{AreProper, IsProperValue};
ghost use Rattle.task_walk.specs.Walks.{IsReady, Walked, ending_of};

use crate::code::Code;
use crate::counts::turns_for;
use crate::stop::Stop;
use crate::world::World;
use dyn_value::{Fault, Outcome, Value};
use std::alloc::Global;
use std::sync::Wait;
use task_code::Frame;

/// Asks for the operation of a site on these operands; one on an object counts a turn before. The answer is the
/// operation's value, or its fault, or `Turns` where none is left.
pub fn ask<R: Wait, W: World>(
    rt: &R,
    alloc: Global,
    code: &Code,
    site: u32,
    operands: &[Value],
    frame: &mut Frame,
    world: &mut W,
) -> Result<Value, Stop>
    requires ready { IsReady code.now (W.tale world.old) (AtSite site (length operands.now) ∷ []) 1 frame.old }
    requires proper { AreProper (W.tale world.old).by operands.now }
    ensures { (levels : ℕ) (lines : List (List ℕ)) → Walked (W.tale world.old).by code.now.functions.now levels
        (λ a. asks a.plan site operands.now frame.old) IsProperValue 1 (ending_of result) frame.old frame.new
        (told (W.tale world.old) lines) (told (W.tale world.new) lines) (W.answered world.old) (W.answered world.new) }
{
    frame.turns = turns_for(code.binder_of(site), operands, frame.turns)?;
    match world.operate(rt, alloc, site, operands)? {
        Outcome::Value(value) => Ok(value),
        Outcome::Fault(fault) => Err(Stop::Fault(fault)),
        Outcome::Call(_) => Err(Stop::Fault(Fault::NoOperator)),
        Outcome::Make(_) => Err(Stop::Fault(Fault::NoOperator)),
    }
}

/// Draws the number of a new object, or `HeapFull` where there may be none of that number.
pub fn draw_object<W: World>(code: &Code, frame: &Frame, world: &mut W) -> Result<u32, Stop>
    requires ready { IsReady code.now (W.tale world.old) [] 1 frame.now }
    ensures { (levels : ℕ) (lines : List (List ℕ)) → Walked (W.tale world.old).by code.now.functions.now levels
        (λ a. draws a.limit frame.now) IsProperNumber 1 (ending_of result) frame.now frame.now
        (told (W.tale world.old) lines) (told (W.tale world.new) lines) (W.answered world.old) (W.answered world.new) }
{
    match world.draw()? {
        Some(number) => Ok(number),
        None => Err(Stop::Fault(Fault::HeapFull)),
    }
}
