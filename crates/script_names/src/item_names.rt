ghost use Rattle.std.specs.Prelude.{◌≡◌, not, IfOk};
ghost use Rattle.script_names.specs.Names.{is_taken, is_value};
ghost use Rattle.script_names.specs.Scripts.{item_names};

use crate::name_set::NameSet;
use dyn_value::DynText;
use script_grammar::Script;
use std::alloc::{AllocError, Global};

/// The names of a script's items.
#[derive(Debug, Drop)]
pub(crate) struct ItemNames {
    /// Those of all items.
    pub(crate) all: NameSet,
    /// Those of shared objects and functions, which a name in an expression may name.
    pub(crate) values: NameSet,
}

/// The names of the script's items.
pub(crate) fn names_of_items(alloc: Global, script: &Script) -> Result<ItemNames, AllocError>
    ensures { IfOk result (λ names. names ≡ item_names script.now) }
{
    let mut all = NameSet::new(alloc);
    let mut values = NameSet::new(alloc);
    for name in script.shared.as_slice() {
        all.push(name)?;
        values.push(name)?;
    }
    for function in script.functions.as_slice() {
        all.push(&function.name)?;
        values.push(&function.name)?;
    }
    for task in script.tasks.as_slice() {
        all.push(&task.name)?;
    }
    Ok(ItemNames { all, values })
}

/// Whether a name in an expression names a local in scope, a function or a shared object.
pub(crate) fn names_a_value(items: &ItemNames, scope: &NameSet, name: &DynText) -> bool
    ensures { result ≡ is_value items.now scope.now name.now }
{
    scope.contains(name) || items.values.contains(name)
}

/// Whether a local may not have this name: an item has it, or a local in scope.
pub(crate) fn names_another(items: &ItemNames, scope: &NameSet, name: &DynText) -> bool
    ensures { result ≡ is_taken items.now scope.now name.now }
{
    items.all.contains(name) || scope.contains(name)
}
