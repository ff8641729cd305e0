ghost use Rattle.std.specs.Prelude.{◌≡◌, ◌<◌, ◌∷◌, ◌++◌, [], true, length, None, IfOk, IfSome, OnOk};
ghost use Rattle.std.specs.List.{list_all, position};
ghost use Rattle.script_grammar.specs.Spelling.{spell};
ghost use Rattle.script_sites.specs.Calls.{has_distinct_names};
ghost use Rattle.script_sites.specs.Sites.{site_binders};
ghost use Rattle.script_names.specs.Names.{row};
ghost use Rattle.script_names.specs.Scripts.{first_bad, function_flags, judged, params_flags, shared_flags, task_flags};

#[cfg(test)]
mod tests;

use crate::expressions::{Flags, pass_comma};
use crate::item_names::{ItemNames, names_another, names_of_items};
use crate::name_set::NameSet;
use crate::statements::judge_block;
use dyn_value::DynText;
use script_grammar::{Function, Item, Script, Task};
use sqlite_items::Items;
use std::alloc::{AllocError, Global};

/// The number of the first token of the script that is a name and breaks a rule; `None` exactly where each name
/// keeps the rules. The one error is want of memory.
///
/// The number is below that of the script's tokens. Where each name keeps the rules, no call repeats an argument's
/// name.
pub fn first_bad_name(alloc: Global, script: &Script) -> Result<Option<usize>, AllocError>
    ensures place { IfOk result (λ place. place ≡ first_bad script.now) }
    ensures within { IfOk result (λ place. IfSome place (λ i. i < length (spell script.now))) }
    ensures distinct { IfOk result
        (λ place. place ≡ None → list_all has_distinct_names (site_binders script.now) ≡ true) }
{
    let flags = judged_tokens(alloc, script)?;
    Ok(first_bad_of(flags.as_slice()))
}

/// The first place at which a token is bad.
fn first_bad_of(flags: &[bool]) -> Option<usize>
    ensures { result ≡ position (λ bad. bad) flags.now }
{
    flags.iter().position(|bad| *bad)
}

/// For each token of the script, whether it is a name that breaks a rule.
fn judged_tokens(alloc: Global, script: &Script) -> Result<Flags, AllocError>
    ensures { IfOk result (λ flags. flags ≡ judged script.now) }
{
    let names = names_of_items(alloc, script)?;
    let mut flags = Items::new(alloc);
    let mut earlier = NameSet::new(alloc);
    let mut items = script.items.as_slice();
    let mut shared = script.shared.as_slice();
    let mut functions = script.functions.as_slice();
    let mut tasks = script.tasks.as_slice();
    while let [item, more @ ..] = items {
        items = more;
        match item {
            Item::Shared(_) => {
                let [name, rest @ ..] = shared else {
                    return Ok(flags);
                };
                shared = rest;
                judge_shared(name, &mut earlier, &mut flags)?;
            }
            Item::Fun(_) => {
                let [function, rest @ ..] = functions else {
                    return Ok(flags);
                };
                functions = rest;
                judge_function(alloc, &names, function, &mut earlier, &mut flags)?;
            }
            Item::Task(_) => {
                let [task, rest @ ..] = tasks else {
                    return Ok(flags);
                };
                tasks = rest;
                judge_task(alloc, &names, task, &mut earlier, &mut flags)?;
            }
        }
    }
    Ok(flags)
}

/// Judges the tokens of a shared name after the items with the earlier names, and adds its name to them.
fn judge_shared(name: &DynText, earlier: &mut NameSet, flags: &mut Flags) -> Result<(), AllocError>
    ensures flags { OnOk result (flags.new ≡ flags.old ++ shared_flags earlier.old name.now) }
    ensures earlier { OnOk result (earlier.new ≡ earlier.old ++ name.now ∷ []) }
{
    flags.push(false)?;
    flags.push(earlier.contains(name))?;
    flags.push(false)?;
    earlier.push(name)
}

/// Judges the tokens of a function after the items with the earlier names, and adds its name to them.
fn judge_function(
    alloc: Global,
    items: &ItemNames,
    function: &Function,
    earlier: &mut NameSet,
    flags: &mut Flags,
) -> Result<(), AllocError>
    ensures flags { OnOk result (flags.new ≡ flags.old ++ function_flags items.now earlier.old function.now) }
    ensures earlier { OnOk result (earlier.new ≡ earlier.old ++ function.now.name ∷ []) }
{
    flags.push(false)?;
    flags.push(earlier.contains(&function.name))?;
    flags.push(false)?;
    let mut scope = judged_params(alloc, items, function.params.as_slice(), flags)?;
    judge_block(alloc, items, &mut scope, &function.body, flags)?;
    earlier.push(&function.name)
}

/// Judges the tokens of a task after the items with the earlier names, and adds its name to them.
fn judge_task(
    alloc: Global,
    items: &ItemNames,
    task: &Task,
    earlier: &mut NameSet,
    flags: &mut Flags,
) -> Result<(), AllocError>
    ensures flags { OnOk result (flags.new ≡ flags.old ++ task_flags items.now earlier.old task.now) }
    ensures earlier { OnOk result (earlier.new ≡ earlier.old ++ task.now.name ∷ []) }
{
    flags.push(false)?;
    flags.push(earlier.contains(&task.name))?;
    let mut scope = NameSet::new(alloc);
    judge_block(alloc, items, &mut scope, &task.body, flags)?;
    earlier.push(&task.name)
}

/// Judges the parameters of a function, the commas between them and the parenthesis after them. They are the
/// scope in which its body begins.
#[tactic(auto, using(crate::proofs::Parameters::one_parameter))]
fn judged_params(
    alloc: Global,
    items: &ItemNames,
    params: &[DynText],
    flags: &mut Flags,
) -> Result<NameSet, AllocError>
    ensures flags { OnOk result (flags.new ≡ flags.old ++ row (params_flags items.now [] params.now)) }
    ensures scope { IfOk result (λ scope. scope ≡ params.now) }
{
    let mut scope = NameSet::new(alloc);
    let mut comma = false;
    for param in params {
        pass_comma(comma, flags)?;
        flags.push(names_another(items, &scope, param))?;
        scope.push(param)?;
        comma = true;
    }
    flags.push(false)?;
    Ok(scope)
}
