ghost use Rattle.std.specs.Prelude.{◌≡◌, ◌<◌, ◌^◌, [], IsSome, IfOk, OnOk, OnErr};
ghost use Rattle.std.specs.List.{flat_map};
ghost use Rattle.object_model.specs.Journals.{IsLegal, entry_step, left_by, members_after};
ghost use Rattle.task_run.specs.Stores.{Begins};
ghost use Rattle.engine_tasks.specs.Lawful.{AreLegal, journal_at};
ghost use Rattle.dlr_top.specs.Rendering.{AddsText, entry_text, journals_text, member_text, members_text, object_count, object_text};

use crate::report::entries::render_entry;
use crate::report::texts::{put_ascii, put_number};
use dyn_value::Entry;
use engine_tasks::Report;
use object_model::{Member, ObjectMembers};
use script_program::Program;
use standard_binders::Binder;
use std::alloc::{AllocError, Global};

/// Appends the journals of the objects that were shared or made, in the order of their numbers.
pub(crate) fn render_journals(
    program: &Program,
    report: &Report,
    out: &mut Vec<u8>,
) -> Result<(), AllocError>
    requires { AreLegal program.now report.now }
    ensures appended { OnOk result (AddsText out.old out.new (journals_text program.now report.now)) }
    ensures begins { OnErr result (Begins out.old.items out.new.items) }
{
    let count = object_count_of(program, report);
    for object in 0..count {
        render_object(program, report, object, out)?;
    }
    Ok(())
}

/// How many objects were shared or made.
fn object_count_of(program: &Program, report: &Report) -> usize
    ensures count { result ≡ object_count program.now report.now }
    ensures few { result < 2 ^ 63 }
{
    let limit = report.closed.journals().len();
    let mut count = program.shared().len().min(limit);
    for end in report.tasks.as_slice() {
        count = count.saturating_add(end.drawn.len()).min(limit);
    }
    count
}

/// Appends an object's number, its journal, and the members after it.
fn render_object(
    program: &Program,
    report: &Report,
    object: usize,
    out: &mut Vec<u8>,
) -> Result<(), AllocError>
    requires legal { AreLegal program.now report.now }
    requires few { object < 2 ^ 63 }
    ensures appended { OnOk result (AddsText out.old out.new (object_text program.now report.now object)) }
    ensures begins { OnErr result (Begins out.old.items out.new.items) }
{
    let journal = journal_of(report, object);
    put_ascii("object ", out)?;
    put_number(object as u64, out)?;
    put_ascii("\n", out)?;
    render_entries(program, journal, out)?;
    put_ascii("  members", out)?;
    let members = replayed(*out.allocator(), program.binders(), journal)?;
    render_members(members.members(), out)?;
    put_ascii("\n", out)
}

/// The journal of the object of this number.
fn journal_of(report: &Report, object: usize) -> &[Entry]
    ensures { result.now ≡ journal_at report.now object }
{
    match report.closed.journals().get(object) {
        Some(journal) => journal.as_slice(),
        None => &[],
    }
}

fn render_entries(program: &Program, journal: &[Entry], out: &mut Vec<u8>) -> Result<(), AllocError>
    ensures appended { OnOk result (AddsText out.old out.new (flat_map (entry_text program.now) journal.now)) }
    ensures begins { OnErr result (Begins out.old.items out.new.items) }
{
    for entry in journal {
        render_entry(program, entry, out)?;
    }
    Ok(())
}

/// The members after the entries of a legal journal.
fn replayed(
    alloc: Global,
    binders: &[Binder],
    journal: &[Entry],
) -> Result<ObjectMembers, AllocError>
    requires { IsLegal binders.now [] journal.now }
    ensures { IfOk result (λ ms. ms ≡ members_after binders.now [] journal.now) }
{
    let mut members = ObjectMembers::new(alloc);
    for entry in journal {
        replay(&mut members, binders, entry)?;
    }
    Ok(members)
}

/// Makes an entry's operation on the members.
fn replay(members: &mut ObjectMembers, binders: &[Binder], entry: &Entry) -> Result<(), AllocError>
    requires { IsSome (entry_step binders.now members.old entry.now) }
    ensures { OnOk result (members.new ≡ left_by members.old (entry_step binders.now members.old entry.now)) }
{
    let Some(binder) = binders.get(entry.binder as usize) else {
        unreachable!()
    };
    let _outcome = members.step(binder, entry.operands.as_slice())?;
    Ok(())
}

/// Appends the members, with a comma after all but the last.
fn render_members(members: &[Member], out: &mut Vec<u8>) -> Result<(), AllocError>
    ensures appended { OnOk result (AddsText out.old out.new (members_text members.now)) }
    ensures begins { OnErr result (Begins out.old.items out.new.items) }
{
    let [first, others @ ..] = members else {
        return Ok(());
    };
    render_member(first, out)?;
    for member in others {
        put_ascii(",", out)?;
        render_member(member, out)?;
    }
    Ok(())
}

fn render_member(member: &Member, out: &mut Vec<u8>) -> Result<(), AllocError>
    ensures appended { OnOk result (AddsText out.old out.new (member_text member.now)) }
    ensures begins { OnErr result (Begins out.old.items out.new.items) }
{
    put_ascii(" ", out)?;
    member.name.quote_to(out)?;
    put_ascii(" ", out)?;
    member.value.quote_to(out)
}
