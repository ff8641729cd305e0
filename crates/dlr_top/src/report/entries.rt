ghost use Rattle.std.specs.Prelude.{OnOk, OnErr, slice_get};
ghost use Rattle.std.specs.List.{flat_map};
ghost use Rattle.task_run.specs.Stores.{Begins};
ghost use Rattle.script_program.specs.Programs.{script_of, binders_of};
ghost use Rattle.dlr_top.specs.Rendering.{AddsText, entry_text, name_of, operand_text, outcome_text, text_of};

use crate::report::texts::{put_ascii, put_text};
use dyn_value::{Entry, Outcome, Value};
use script_program::Program;
use std::alloc::AllocError;

/// Appends the line of an entry: its task, its binder, its operands and its outcome.
pub(crate) fn render_entry(
    program: &Program,
    entry: &Entry,
    out: &mut Vec<u8>,
) -> Result<(), AllocError>
    ensures appended { OnOk result (AddsText out.old out.new (entry_text program.now entry.now)) }
    ensures begins { OnErr result (Begins out.old.items out.new.items) }
{
    put_ascii("  ", out)?;
    render_task_name(program, entry.task, out)?;
    put_ascii(" ", out)?;
    render_binder(program, entry.binder, out)?;
    render_operands(entry.operands.as_slice(), out)?;
    put_ascii(" -> ", out)?;
    render_outcome(&entry.outcome, out)?;
    put_ascii("\n", out)
}

/// Appends the name of the task of this number.
fn render_task_name(program: &Program, task: u32, out: &mut Vec<u8>) -> Result<(), AllocError>
    ensures appended { OnOk result (AddsText out.old out.new (name_of (slice_get (script_of program.now).tasks task))) }
    ensures begins { OnErr result (Begins out.old.items out.new.items) }
{
    match program.tasks().get(task as usize) {
        Some(task) => put_text(&task.name, out),
        None => Ok(()),
    }
}

/// Appends the text of the binder of this number.
fn render_binder(program: &Program, binder: u32, out: &mut Vec<u8>) -> Result<(), AllocError>
    ensures appended { OnOk result (AddsText out.old out.new (text_of (slice_get (binders_of program.now) binder))) }
    ensures begins { OnErr result (Begins out.old.items out.new.items) }
{
    match program.binders().get(binder as usize) {
        Some(binder) => binder.print_to(out),
        None => Ok(()),
    }
}

/// Appends the quoted operands, each after a space.
fn render_operands(operands: &[Value], out: &mut Vec<u8>) -> Result<(), AllocError>
    ensures appended { OnOk result (AddsText out.old out.new (flat_map operand_text operands.now)) }
    ensures begins { OnErr result (Begins out.old.items out.new.items) }
{
    for operand in operands {
        render_operand(operand, out)?;
    }
    Ok(())
}

fn render_operand(operand: &Value, out: &mut Vec<u8>) -> Result<(), AllocError>
    ensures appended { OnOk result (AddsText out.old out.new (operand_text operand.now)) }
    ensures begins { OnErr result (Begins out.old.items out.new.items) }
{
    put_ascii(" ", out)?;
    operand.quote_to(out)
}

/// Appends the quoted value, or the fault after `! `.
fn render_outcome(outcome: &Outcome, out: &mut Vec<u8>) -> Result<(), AllocError>
    ensures appended { OnOk result (AddsText out.old out.new (outcome_text outcome.now)) }
    ensures begins { OnErr result (Begins out.old.items out.new.items) }
{
    match outcome {
        Outcome::Value(value) => value.quote_to(out),
        Outcome::Fault(fault) => {
            put_ascii("! ", out)?;
            fault.print_to(out)
        }
        Outcome::Call(_) | Outcome::Make(_) => Ok(()),
    }
}
