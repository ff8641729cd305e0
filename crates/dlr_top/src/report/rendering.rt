ghost use Rattle.std.specs.Prelude.{◌≡◌, length, OnOk, OnErr};
ghost use Rattle.task_run.specs.Stores.{Begins};
ghost use Rattle.engine_tasks.specs.Lawful.{AreLegal, IsLawful};
ghost use Rattle.script_program.specs.Programs.{script_of};
ghost use Rattle.dlr_top.specs.Rendering.{AddsText, line_text, ended_text, task_text, lines_text, journals_if, report_text};

use crate::report::journals::render_journals;
use crate::report::texts::{put_ascii, put_text};
use command_words::Options;
use dyn_value::DynText;
use engine_tasks::{Report, TaskEnd};
use script_grammar::Task;
use script_program::Program;
use std::alloc::AllocError;
use task_walk::Ended;

/// Appends the text of a lawful report, as UTF-8. Where memory is refused, `out` stays as it was.
pub fn render(
    program: &Program,
    options: &Options,
    report: &Report,
    out: &mut Vec<u8>,
) -> Result<(), AllocError>
    requires { IsLawful program.now options.now report.now }
    ensures appended { OnOk result (AddsText out.old out.new (report_text program.now options.now report.now)) }
    ensures refused { OnErr result (out.new.items ≡ out.old.items) }
{
    let held = out.len();
    let rendered = render_whole(program, options, report, out);
    if rendered.is_err() {
        out.truncate(held);
    }
    rendered
}

/// Appends the text of a lawful report. Where memory is refused, `out` may be left with a part of it.
fn render_whole(
    program: &Program,
    options: &Options,
    report: &Report,
    out: &mut Vec<u8>,
) -> Result<(), AllocError>
    requires { IsLawful program.now options.now report.now }
    ensures appended { OnOk result (AddsText out.old out.new (report_text program.now options.now report.now)) }
    ensures begins { OnErr result (Begins out.old.items out.new.items) }
{
    render_tasks(program, report, out)?;
    render_asked_journals(program, options, report, out)
}

/// Appends the journals, where they were asked for.
fn render_asked_journals(
    program: &Program,
    options: &Options,
    report: &Report,
    out: &mut Vec<u8>,
) -> Result<(), AllocError>
    requires { AreLegal program.now report.now }
    ensures appended { OnOk result (AddsText out.old out.new (journals_if options.now.journal program.now report.now)) }
    ensures begins { OnErr result (Begins out.old.items out.new.items) }
{
    if options.journal {
        return render_journals(program, report, out);
    }
    Ok(())
}

/// Appends for each task its lines, and its fault where it ended by one.
fn render_tasks(program: &Program, report: &Report, out: &mut Vec<u8>) -> Result<(), AllocError>
    requires { length report.now.tasks ≡ length (script_of program.now).tasks }
    ensures appended { OnOk result (AddsText out.old out.new (lines_text program.now report.now)) }
    ensures begins { OnErr result (Begins out.old.items out.new.items) }
{
    let ends = report.tasks.as_slice();
    for (at, task) in program.tasks().iter().enumerate() {
        render_task(task, &ends[at], out)?;
    }
    Ok(())
}

/// Appends the lines of a task, and its fault where it ended by one.
fn render_task(task: &Task, end: &TaskEnd, out: &mut Vec<u8>) -> Result<(), AllocError>
    ensures appended { OnOk result (AddsText out.old out.new (task_text task.now end.now)) }
    ensures begins { OnErr result (Begins out.old.items out.new.items) }
{
    for line in end.lines.as_slice() {
        render_line(&task.name, line, out)?;
    }
    render_ended(&task.name, &end.ended, out)
}

/// Appends a printed line.
fn render_line(name: &DynText, line: &DynText, out: &mut Vec<u8>) -> Result<(), AllocError>
    ensures appended { OnOk result (AddsText out.old out.new (line_text name.now line.now)) }
    ensures begins { OnErr result (Begins out.old.items out.new.items) }
{
    put_text(name, out)?;
    put_ascii(": ", out)?;
    put_text(line, out)?;
    put_ascii("\n", out)
}

/// Appends the fault by which a task ended, if it did.
fn render_ended(name: &DynText, ended: &Ended, out: &mut Vec<u8>) -> Result<(), AllocError>
    ensures appended { OnOk result (AddsText out.old out.new (ended_text name.now ended.now)) }
    ensures begins { OnErr result (Begins out.old.items out.new.items) }
{
    match ended {
        Ended::Done => Ok(()),
        Ended::Faulted(fault) => {
            put_text(name, out)?;
            put_ascii("! ", out)?;
            fault.print_to(out)?;
            put_ascii("\n", out)
        }
    }
}
