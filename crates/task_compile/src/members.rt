ghost use Rattle.std.specs.Prelude.{◌≡◌, ◌+◌, length, List, ℕ, IfOk, OnOk};
ghost use Rattle.script_grammar.specs.declared.tree.Stmt.TheVariants as stmt;
ghost use Rattle.script_sites.specs.Sites.{expr_sites};
ghost use Rattle.task_compile.specs.CompiledBlocks.{IsStep};

use crate::expressions::compile_expr;
use crate::names::Scope;
use crate::operands::new_site;
use script_grammar::Expr;
use std::alloc::{AllocError, Global};
use task_code::Step;

/// The code of a write of a member, whose site stands between its target's and its value's.
pub(crate) fn compile_set_member(
    alloc: Global,
    scope: &Scope,
    site: &mut u32,
    target: &Expr,
    value: &Expr,
) -> Result<Step, AllocError>
    ensures code { IfOk result (λ step. (name : List ℕ) → IsStep scope.now.items scope.now.locals site.old (stmt.SetMember target.now name value.now) step) }
    ensures sites { OnOk result (site.new ≡ site.old + length (expr_sites target.now) + 1 + length (expr_sites value.now)) }
{
    let target = compile_expr(alloc, scope, site, target)?;
    let number = new_site(site)?;
    let value = compile_expr(alloc, scope, site, value)?;
    Ok(Step::SetMember {
        site: number,
        target,
        value,
    })
}

/// The code of a write at a key.
pub(crate) fn compile_set_index(
    alloc: Global,
    scope: &Scope,
    site: &mut u32,
    target: &Expr,
    key: &Expr,
    value: &Expr,
) -> Result<Step, AllocError>
    ensures code { IfOk result (λ step. IsStep scope.now.items scope.now.locals site.old (stmt.SetIndex target.now key.now value.now) step) }
    ensures sites { OnOk result (site.new ≡ site.old + length (expr_sites target.now) + 1 + length (expr_sites key.now) + length (expr_sites value.now)) }
{
    let target = compile_expr(alloc, scope, site, target)?;
    let number = new_site(site)?;
    let key = compile_expr(alloc, scope, site, key)?;
    let value = compile_expr(alloc, scope, site, value)?;
    Ok(Step::SetIndex {
        site: number,
        target,
        key,
        value,
    })
}

/// The code of a removal of a member.
pub(crate) fn compile_delete_member(
    alloc: Global,
    scope: &Scope,
    site: &mut u32,
    target: &Expr,
) -> Result<Step, AllocError>
    ensures code { IfOk result (λ step. (name : List ℕ) → IsStep scope.now.items scope.now.locals site.old (stmt.DeleteMember target.now name) step) }
    ensures sites { OnOk result (site.new ≡ site.old + length (expr_sites target.now) + 1) }
{
    let target = compile_expr(alloc, scope, site, target)?;
    let number = new_site(site)?;
    Ok(Step::DeleteMember {
        site: number,
        target,
    })
}

/// The code of a removal at a key.
pub(crate) fn compile_delete_index(
    alloc: Global,
    scope: &Scope,
    site: &mut u32,
    target: &Expr,
    key: &Expr,
) -> Result<Step, AllocError>
    ensures code { IfOk result (λ step. IsStep scope.now.items scope.now.locals site.old (stmt.DeleteIndex target.now key.now) step) }
    ensures sites { OnOk result (site.new ≡ site.old + length (expr_sites target.now) + 1 + length (expr_sites key.now)) }
{
    let target = compile_expr(alloc, scope, site, target)?;
    let number = new_site(site)?;
    let key = compile_expr(alloc, scope, site, key)?;
    Ok(Step::DeleteIndex {
        site: number,
        target,
        key,
    })
}
