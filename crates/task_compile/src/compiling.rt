ghost use Rattle.std.specs.Prelude.{◌≡◌, true, length, map, IfOk};
ghost use Rattle.std.specs.List.{AllByRecursion};
ghost use Rattle.script_grammar.specs.WrittenStatements.{is_written};
ghost use Rattle.script_sites.specs.Limits.{IsWithinLimits};
ghost use Rattle.script_sites.specs.Numbering.{IsNumbering};
ghost use Rattle.script_sites.specs.Sites.{function_starts, site_binders, task_starts};
ghost use Rattle.task_compile.specs.ScriptCodes.{DoesTasks, IsRunnable, IsRunnableFunction, code_params, params_of};

use crate::bodies::{compile_functions, compile_tasks};
use crate::names::{Scope, item_names};
use script_grammar::Script;
use script_sites::{Numbering, bodies_have_their_sites};
use sqlite_items::Items;
use std::alloc::{AllocError, Global};
use task_code::{FunctionCode, Steps};

/// The code of a script: of its functions and of its tasks, in the order of their numbers.
#[derive(Debug, Drop)]
pub struct ScriptCode {
    pub functions: Items<FunctionCode>,
    /// The body of each task.
    pub tasks: Items<Steps>,
}

/// The code of a script, whose sites have these numbers. The one error is want of memory.
///
/// The code of each task does what the task does: the same operations at the same sites in the same order, whatever
/// they answer, with the same end.
pub fn compile(
    alloc: Global,
    script: &Script,
    numbering: &Numbering,
) -> Result<ScriptCode, AllocError>
    requires written { is_written script.now ≡ true }
    requires limits { IsWithinLimits script.now }
    requires numbering { IsNumbering (site_binders script.now) numbering.now.sites numbering.now.binders }
    requires functions { numbering.now.function_starts ≡ function_starts script.now }
    requires tasks { numbering.now.task_starts ≡ task_starts script.now }
    ensures count { IfOk result (λ code. length code.tasks ≡ length script.now.tasks) }
    ensures params { IfOk result (λ code. map code_params code.functions ≡ map params_of script.now.functions) }
    ensures functions { IfOk result
        (λ code. AllByRecursion (IsRunnableFunction script.now numbering.now) code.functions) }
    ensures tasks { IfOk result (λ code. AllByRecursion (IsRunnable script.now numbering.now) code.tasks) }
    ensures runs { IfOk result (DoesTasks script.now numbering.now) }
{
    bodies_have_their_sites();
    let mut scope = Scope {
        items: item_names(alloc, script)?,
        locals: Items::new(alloc),
    };
    let functions = compile_functions(
        alloc,
        &mut scope,
        script.functions.as_slice(),
        numbering.function_starts.as_slice(),
    )?;
    let tasks = compile_tasks(
        alloc,
        &mut scope,
        script.tasks.as_slice(),
        numbering.task_starts.as_slice(),
    )?;
    Ok(ScriptCode { functions, tasks })
}
