ghost use Rattle.std.specs.Prelude.{◌≡◌, ◌+◌, ◌<◌, IsTrue, ◌↔◌, true, MatchOption, length};
ghost use Rattle.std.specs.List.{list_all};
ghost use Rattle.script_sites.specs.Limits.{stmt_locals, block_locals, has_few_function_locals, has_few_task_locals};

use script_grammar::{Block, Function, Stmt, Task};

/// The most locals of a function or a task.
pub const MOST_LOCALS: usize = 256;

/// Whether no function has more locals than it may, its parameters counted too.
pub(crate) fn have_functions_few_locals(functions: &[Function]) -> bool
    ensures { result ≡ list_all has_few_function_locals functions.now }
{
    functions
        .iter()
        .all(|function| has_function_few_locals(function))
}

fn has_function_few_locals(function: &Function) -> bool
    ensures { result ≡ has_few_function_locals function.now }
{
    let params = function.params.len();
    params <= MOST_LOCALS && left_after_block(&function.body, MOST_LOCALS - params).is_some()
}

/// Whether no task has more locals than it may.
pub(crate) fn have_tasks_few_locals(tasks: &[Task]) -> bool
    ensures { result ≡ list_all has_few_task_locals tasks.now }
{
    tasks.iter().all(|task| has_task_few_locals(task))
}

fn has_task_few_locals(task: &Task) -> bool
    ensures { result ≡ has_few_task_locals task.now }
{
    left_after_block(&task.body, MOST_LOCALS).is_some()
}

/// How many of these many locals the block leaves, if it does not declare more.
#[cycle(locals)]
fn left_after_block(block: &Block, room: usize) -> Option<usize>
    ensures { MatchOption result (room < block_locals block.now) (λ left. left + block_locals block.now ≡ room) }
{
    let mut left = room;
    for stmt in block.0.as_slice() {
        left = left_after_stmt(stmt, left)?;
    }
    Some(left)
}

/// How many of these many locals the statement leaves, if it does not declare more.
#[cycle(locals)]
fn left_after_stmt(stmt: &Stmt, room: usize) -> Option<usize>
    ensures { MatchOption result (room < stmt_locals stmt.now) (λ left. left + stmt_locals stmt.now ≡ room) }
{
    match stmt {
        Stmt::Let { .. } => room.checked_sub(1),
        Stmt::If { yes, no, .. } => {
            let left = left_after_block(yes, room)?;
            match no {
                Some(no) => left_after_block(no, left),
                None => Some(left),
            }
        }
        Stmt::While { body, .. } => left_after_block(body, room),
        Stmt::Try { body, caught, .. } => {
            let left = left_after_block(body, room)?;
            left_after_block(caught, left)?.checked_sub(1)
        }
        _ => Some(room),
    }
}
