ghost use Rattle.std.specs.Prelude.{◌≡◌, map, IfOk};
ghost use Rattle.script_program.specs.Programs.{params_of};

use dyn_value::DynText;
use script_grammar::Function;
use sqlite_items::Items;
use std::alloc::{AllocError, Global};

/// The names of each function's parameters. The one error is want of memory.
pub(crate) fn parameter_names(
    alloc: Global,
    functions: &[Function],
) -> Result<Items<Items<DynText>>, AllocError>
    ensures { IfOk result (λ all. all ≡ map params_of functions.now) }
{
    let mut all = Items::new(alloc);
    for function in functions {
        all.push(copied(alloc, function.params.as_slice())?)?;
    }
    Ok(all)
}

/// Equal names in the same order.
fn copied(alloc: Global, names: &[DynText]) -> Result<Items<DynText>, AllocError>
    ensures { IfOk result (λ copies. copies ≡ names.now) }
{
    let mut copies = Items::new(alloc);
    for name in names {
        copies.push(name.copy()?)?;
    }
    Ok(copies)
}
