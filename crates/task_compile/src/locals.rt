ghost use Rattle.std.specs.Prelude.{◌≡◌, ◌+◌, ◌++◌, ◌∷◌, [], length, IfOk, OnOk};
ghost use Rattle.script_grammar.specs.declared.tree.Stmt.TheVariants as stmt;
ghost use Rattle.script_sites.specs.Sites.{expr_sites};
ghost use Rattle.task_compile.specs.CompiledBlocks.{IsStep};

use crate::expressions::compile_expr;
use crate::names::{Scope, number_at, place_of};
use dyn_value::DynText;
use script_grammar::Expr;
use std::alloc::{AllocError, Global};
use task_code::Step;

/// The code of a declaration, after whose value the name is in scope.
pub(crate) fn compile_let(
    alloc: Global,
    scope: &mut Scope,
    site: &mut u32,
    name: &DynText,
    value: &Expr,
) -> Result<Step, AllocError>
    ensures code { IfOk result (λ step. IsStep scope.old.items scope.old.locals site.old (stmt.Let name.now value.now) step) }
    ensures sites { OnOk result (site.new ≡ site.old + length (expr_sites value.now)) }
    ensures items { OnOk result (scope.new.items ≡ scope.old.items) }
    ensures locals { OnOk result (scope.new.locals ≡ scope.old.locals ++ name.now ∷ []) }
{
    let value = compile_expr(alloc, scope, site, value)?;
    let local = scope.declare(name)?;
    Ok(Step::Set { local, value })
}

/// The code of an assignment. One to no local in scope, which the rules for names exclude, leaves its value.
pub(crate) fn compile_assign(
    alloc: Global,
    scope: &Scope,
    site: &mut u32,
    name: &DynText,
    value: &Expr,
) -> Result<Step, AllocError>
    ensures code { IfOk result (λ step. IsStep scope.now.items scope.now.locals site.old (stmt.Assign name.now value.now) step) }
    ensures sites { OnOk result (site.new ≡ site.old + length (expr_sites value.now)) }
{
    let value = compile_expr(alloc, scope, site, value)?;
    match place_of(scope.locals.as_slice(), name) {
        Some(place) => {
            let local = number_at(place)?;
            Ok(Step::Set { local, value })
        }
        None => Ok(Step::Plain(value)),
    }
}
