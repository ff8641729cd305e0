ghost use Rattle.std.specs.Prelude.{◌≡◌, ◌∷◌, ◌++◌, map, OnOk};
ghost use Rattle.dyn_value.specs.declared.operator.UnOp.TheVariants as unary;
ghost use Rattle.standard_binders.specs.declared.binder.Binder.TheVariants as binder;
ghost use Rattle.script_sites.specs.Calls.{checked};
ghost use Rattle.script_sites.specs.Sites.{block_sites, expr_sites, stmt_sites};

use crate::members::{delete_member, set_member};
use crate::sites::{Sites, add_expr_sites};
use dyn_value::UnOp;
use script_grammar::{Block, Expr, Stmt};
use standard_binders::Binder;
use std::alloc::{AllocError, Global};

#[cycle(statement_sites)]
pub(crate) fn add_block_sites(
    alloc: Global,
    block: &Block,
    sites: &mut Sites,
) -> Result<(), AllocError>
    ensures { OnOk result (sites.new ≡ sites.old ++ map checked (block_sites block.now)) }
{
    for stmt in block.0.as_slice() {
        add_stmt_sites(alloc, stmt, sites)?;
    }
    Ok(())
}

#[cycle(statement_sites)]
fn add_stmt_sites(alloc: Global, stmt: &Stmt, sites: &mut Sites) -> Result<(), AllocError>
    ensures { OnOk result (sites.new ≡ sites.old ++ map checked (stmt_sites stmt.now)) }
{
    match stmt {
        Stmt::Let { value, .. }
        | Stmt::Assign { value, .. }
        | Stmt::Return(value)
        | Stmt::Print(value)
        | Stmt::Plain(value) => add_expr_sites(alloc, value, sites),
        Stmt::SetMember {
            target,
            name,
            value,
        } => {
            add_expr_sites(alloc, target, sites)?;
            sites.push(Some(set_member(name)?))?;
            add_expr_sites(alloc, value, sites)
        }
        Stmt::SetIndex { target, key, value } => {
            add_expr_sites(alloc, target, sites)?;
            sites.push(Some(Binder::SetIndex))?;
            add_expr_sites(alloc, key, sites)?;
            add_expr_sites(alloc, value, sites)
        }
        Stmt::DeleteMember { target, name } => {
            add_expr_sites(alloc, target, sites)?;
            sites.push(Some(delete_member(name)?))
        }
        Stmt::DeleteIndex { target, key } => {
            add_expr_sites(alloc, target, sites)?;
            sites.push(Some(Binder::DeleteIndex))?;
            add_expr_sites(alloc, key, sites)
        }
        Stmt::If { test, yes, no } => {
            add_test_sites(alloc, test, sites)?;
            add_block_sites(alloc, yes, sites)?;
            match no {
                Some(no) => add_block_sites(alloc, no, sites),
                None => Ok(()),
            }
        }
        Stmt::While { test, body } => {
            add_test_sites(alloc, test, sites)?;
            add_block_sites(alloc, body, sites)
        }
        Stmt::Try { body, caught, .. } => {
            add_block_sites(alloc, body, sites)?;
            add_block_sites(alloc, caught, sites)
        }
    }
}

/// The site of `if` or `while` stands at the word, before those of the test.
fn add_test_sites(alloc: Global, test: &Expr, sites: &mut Sites) -> Result<(), AllocError>
    ensures { OnOk result
        (sites.new ≡ sites.old ++ map checked (binder.UnaryOperation unary.IsTrue ∷ expr_sites test.now)) }
{
    sites.push(Some(Binder::UnaryOperation { op: UnOp::IsTrue }))?;
    add_expr_sites(alloc, test, sites)
}
