ghost use Rattle.std.specs.Prelude.{◌≡◌, [], ◌∷◌, ◌++◌, length, map, IfOk, OnOk};
ghost use Rattle.script_sites.specs.Calls.{checked};
ghost use Rattle.script_sites.specs.Sites.{site_binders, function_sites, function_starts, task_sites, task_starts};

#[cfg(test)]
mod tests;

use crate::sites::Sites;
use crate::statements::add_block_sites;
use script_grammar::{Function, Item, Script, Task};
use sqlite_items::Items;
use std::alloc::{AllocError, Global};

/// The sites of a script, with how many stand before each function and each task.
#[derive(Debug, Drop)]
pub(crate) struct ScriptSites {
    pub(crate) sites: Sites,
    pub(crate) function_starts: Items<usize>,
    pub(crate) task_starts: Items<usize>,
}

/// The sites of the script.
pub(crate) fn script_sites(alloc: Global, script: &Script) -> Result<ScriptSites, AllocError>
    ensures sites { IfOk result (λ found. found.sites ≡ map checked (site_binders script.now)) }
    ensures functions { IfOk result (λ found. found.function_starts ≡ function_starts script.now) }
    ensures tasks { IfOk result (λ found. found.task_starts ≡ task_starts script.now) }
{
    let mut found = ScriptSites {
        sites: Items::new(alloc),
        function_starts: Items::new(alloc),
        task_starts: Items::new(alloc),
    };
    let mut items = script.items.as_slice();
    let mut shared = script.shared.as_slice();
    let mut functions = script.functions.as_slice();
    let mut tasks = script.tasks.as_slice();
    while let [item, more @ ..] = items {
        items = more;
        match item {
            Item::Shared(_) => {
                let [_name, rest @ ..] = shared else {
                    return Ok(found);
                };
                shared = rest;
            }
            Item::Fun(_) => {
                let [function, rest @ ..] = functions else {
                    return Ok(found);
                };
                functions = rest;
                add_function(alloc, function, &mut found)?;
            }
            Item::Task(_) => {
                let [task, rest @ ..] = tasks else {
                    return Ok(found);
                };
                tasks = rest;
                add_task(alloc, task, &mut found)?;
            }
        }
    }
    Ok(found)
}

fn add_function(
    alloc: Global,
    function: &Function,
    found: &mut ScriptSites,
) -> Result<(), AllocError>
    ensures sites { OnOk result (found.new.sites ≡ found.old.sites ++ map checked (function_sites function.now)) }
    ensures functions { OnOk result
        (found.new.function_starts ≡ found.old.function_starts ++ length found.old.sites ∷ []) }
    ensures tasks { OnOk result (found.new.task_starts ≡ found.old.task_starts) }
{
    found.function_starts.push(found.sites.len())?;
    add_block_sites(alloc, &function.body, &mut found.sites)
}

fn add_task(alloc: Global, task: &Task, found: &mut ScriptSites) -> Result<(), AllocError>
    ensures sites { OnOk result (found.new.sites ≡ found.old.sites ++ map checked (task_sites task.now)) }
    ensures functions { OnOk result (found.new.function_starts ≡ found.old.function_starts) }
    ensures tasks { OnOk result (found.new.task_starts ≡ found.old.task_starts ++ length found.old.sites ∷ []) }
{
    found.task_starts.push(found.sites.len())?;
    add_block_sites(alloc, &task.body, &mut found.sites)
}
