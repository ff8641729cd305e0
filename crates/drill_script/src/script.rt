ghost use Rattle.std.specs.Prelude.{◌≡◌, ◌++◌, IfOk, OnOk, string_bytes};
ghost use Rattle.drill_script.specs.Draws.{state_after};
ghost use Rattle.drill_script.specs.Script.{drill_text, task_text, statements_text};

use crate::draws::Draws;
use crate::statement::Statement;
use std::alloc::{AllocError, Global};

/// The tasks of the script.
const TASKS: u32 = 8;

/// The statements of a task, each in a line of its own.
const STATEMENTS: u32 = 250;

/// Room for the longest script: its first line, what surrounds the statements of a task, and the longest statements.
const ROOM: usize = 10 + 8 * (55 + 250 * 42);

/// The script of the drill of this seed, as UTF-8. The one error is want of memory.
pub fn drill_script(alloc: Global, seed: u32) -> Result<Vec<u8>, AllocError>
    ensures { IfOk result (λ script. script.items ≡ drill_text seed) }
{
    let mut script = String::with_capacity(alloc, ROOM)?;
    let mut draws = Draws::new(seed);
    script.push_str("shared s;\n")?;
    for task in 0..TASKS {
        push_task(&mut script, task, &mut draws)?;
    }
    Ok(script.into_bytes())
}

/// Appends the lines of the task of this number, with the statements that the next draws choose.
fn push_task(script: &mut String, task: u32, draws: &mut Draws) -> Result<(), AllocError>
    ensures text { OnOk result (string_bytes script.new
        ≡ string_bytes script.old ++ task_text task (statements_text draws.old.state 0 250)) }
    ensures state { OnOk result (draws.new.state ≡ state_after draws.old.state 750) }
{
    writeln!(script, "task t{task} {{")?;
    script.push_str("let i = 0;\nwhile (i < 50) {\n")?;
    push_statements(script, draws)?;
    script.push_str("i = (i + 1);\n}\n}\n")
}

/// Appends the lines of the statements of a task, which the next draws choose.
fn push_statements(script: &mut String, draws: &mut Draws) -> Result<(), AllocError>
    ensures text { OnOk result (string_bytes script.new
        ≡ string_bytes script.old ++ statements_text draws.old.state 0 250) }
    ensures state { OnOk result (draws.new.state ≡ state_after draws.old.state 750) }
{
    for _ in 0..STATEMENTS {
        Statement::drawn(draws).append_to(script)?;
    }
    Ok(())
}
