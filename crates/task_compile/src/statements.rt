ghost use Rattle.std.specs.Prelude.{◌≡◌, ◌+◌, ◌++◌, length, IfOk, OnOk};
ghost use Rattle.std.specs.Option.{option_map};
ghost use Rattle.script_sites.specs.Sites.{block_sites, else_sites, stmt_sites};
ghost use Rattle.task_compile.specs.CompiledBlocks.{IsOther, IsStep, IsSteps, declares};

use crate::expressions::compile_expr;
use crate::locals::{compile_assign, compile_let};
use crate::members::{
    compile_delete_index, compile_delete_member, compile_set_index, compile_set_member,
};
use crate::names::Scope;
use crate::operands::new_site;
use script_grammar::{Block, Stmt};
use sqlite_items::Items;
use std::alloc::{AllocError, Global};
use task_code::{Step, Steps};

/// The code of a block, whose sites are numbered from `site` on. Its locals are out of scope after it.
#[cycle(statement)]
pub(crate) fn compile_block(
    alloc: Global,
    scope: &mut Scope,
    site: &mut u32,
    block: &Block,
) -> Result<Steps, AllocError>
    ensures code { IfOk result (λ steps. IsSteps scope.old.items scope.old.locals site.old block.now steps) }
    ensures sites { OnOk result (site.new ≡ site.old + length (block_sites block.now)) }
    ensures scope { OnOk result (scope.new ≡ scope.old) }
{
    let in_scope = scope.locals.len();
    let mut steps = Items::new(alloc);
    for stmt in block.0.as_slice() {
        steps.push(compile_stmt(alloc, scope, site, stmt)?)?;
    }
    scope.leave(in_scope);
    Ok(Steps(steps))
}

/// The code of a statement. The site of a test stands before those in it, and the name of a fault is in scope in the second
/// block of `try` alone.
#[cycle(statement)]
fn compile_stmt(
    alloc: Global,
    scope: &mut Scope,
    site: &mut u32,
    stmt: &Stmt,
) -> Result<Step, AllocError>
    ensures code { IfOk result (λ step. IsStep scope.old.items scope.old.locals site.old stmt.now step) }
    ensures sites { OnOk result (site.new ≡ site.old + length (stmt_sites stmt.now)) }
    ensures items { OnOk result (scope.new.items ≡ scope.old.items) }
    ensures locals { OnOk result (scope.new.locals ≡ scope.old.locals ++ declares stmt.now) }
{
    match stmt {
        Stmt::Let { name, value } => compile_let(alloc, scope, site, name, value),
        Stmt::Assign { name, value } => compile_assign(alloc, scope, site, name, value),
        Stmt::SetMember { target, value, .. } => {
            compile_set_member(alloc, scope, site, target, value)
        }
        Stmt::SetIndex { target, key, value } => {
            compile_set_index(alloc, scope, site, target, key, value)
        }
        Stmt::DeleteMember { target, .. } => compile_delete_member(alloc, scope, site, target),
        Stmt::DeleteIndex { target, key } => {
            compile_delete_index(alloc, scope, site, target, key)
        }
        Stmt::If { test, yes, no } => {
            let number = new_site(site)?;
            let test = compile_expr(alloc, scope, site, test)?;
            let yes = compile_block(alloc, scope, site, yes)?;
            let no = compile_other(alloc, scope, site, no)?;
            Ok(Step::If {
                site: number,
                test,
                yes,
                no,
            })
        }
        Stmt::While { test, body } => {
            let number = new_site(site)?;
            let test = compile_expr(alloc, scope, site, test)?;
            let body = compile_block(alloc, scope, site, body)?;
            Ok(Step::While {
                site: number,
                test,
                body,
            })
        }
        Stmt::Return(value) => Ok(Step::Return(compile_expr(alloc, scope, site, value)?)),
        Stmt::Print(value) => Ok(Step::Print(compile_expr(alloc, scope, site, value)?)),
        Stmt::Try { body, name, caught } => {
            let outside = scope.locals.len();
            let tried = compile_block(alloc, scope, site, body)?;
            let local = scope.declare(name)?;
            let caught = compile_block(alloc, scope, site, caught)?;
            scope.leave(outside);
            Ok(Step::Try {
                body: tried,
                local,
                caught,
            })
        }
        Stmt::Plain(value) => Ok(Step::Plain(compile_expr(alloc, scope, site, value)?)),
    }
}

/// The code of the block of `else`, if there is one.
#[cycle(statement)]
fn compile_other(
    alloc: Global,
    scope: &mut Scope,
    site: &mut u32,
    other: &Option<Block>,
) -> Result<Option<Steps>, AllocError>
    ensures code { IfOk result (λ steps. IsOther scope.old.items scope.old.locals site.old other.now steps) }
    ensures sites { OnOk result (site.new ≡ site.old + length (else_sites (option_map block_sites other.now))) }
    ensures scope { OnOk result (scope.new ≡ scope.old) }
{
    match other {
        Some(block) => Ok(Some(compile_block(alloc, scope, site, block)?)),
        None => Ok(None),
    }
}
