ghost use Rattle.std.specs.Prelude.{◌≡◌, ◌∷◌, ◌++◌, [], OnOk};
ghost use Rattle.script_names.specs.Names.{is_taken};
ghost use Rattle.script_names.specs.Statements.{assigned_flags, block_flags, index_flags, statement, value_flags};

use crate::expressions::{Flags, judge_expr, pass_two};
use crate::item_names::{ItemNames, names_another};
use crate::name_set::NameSet;
use dyn_value::DynText;
use script_grammar::{Block, Expr, Stmt};
use std::alloc::{AllocError, Global};

/// Judges the tokens of the block, in this scope.
#[cycle(statements)]
pub(crate) fn judge_block(
    alloc: Global,
    items: &ItemNames,
    scope: &mut NameSet,
    block: &Block,
    flags: &mut Flags,
) -> Result<(), AllocError>
    ensures flags { OnOk result (flags.new ≡ flags.old ++ block_flags items.now scope.old block.now) }
    ensures scope { OnOk result (scope.new ≡ scope.old) }
{
    let outside = scope.len();
    flags.push(false)?;
    for stmt in block.0.as_slice() {
        judge_stmt(alloc, items, scope, stmt, flags)?;
    }
    scope.truncate(outside);
    flags.push(false)
}

/// Judges the tokens of the statement, in this scope, and adds to the scope what the statement declares.
#[cycle(statements)]
fn judge_stmt(
    alloc: Global,
    items: &ItemNames,
    scope: &mut NameSet,
    stmt: &Stmt,
    flags: &mut Flags,
) -> Result<(), AllocError>
    ensures flags { OnOk result (flags.new ≡ flags.old ++ (statement items.now stmt.now).flags scope.old) }
    ensures scope { OnOk result (scope.new ≡ scope.old ++ (statement items.now stmt.now).declares) }
{
    match stmt {
        Stmt::Let { name, value } => {
            flags.push(false)?;
            flags.push(names_another(items, scope, name))?;
            judge_assigned(alloc, items, scope, value, flags)?;
            scope.push(name)
        }
        Stmt::Assign { name, value } => {
            flags.push(!scope.contains(name))?;
            judge_assigned(alloc, items, scope, value, flags)
        }
        Stmt::SetMember { target, value, .. } => {
            judge_expr(alloc, items, scope, target, flags)?;
            pass_two(flags)?;
            judge_assigned(alloc, items, scope, value, flags)
        }
        Stmt::SetIndex { target, key, value } => {
            judge_expr(alloc, items, scope, target, flags)?;
            judge_index(alloc, items, scope, key, flags)?;
            judge_assigned(alloc, items, scope, value, flags)
        }
        Stmt::DeleteMember { target, .. } => {
            flags.push(false)?;
            judge_expr(alloc, items, scope, target, flags)?;
            pass_two(flags)?;
            flags.push(false)
        }
        Stmt::DeleteIndex { target, key } => {
            flags.push(false)?;
            judge_expr(alloc, items, scope, target, flags)?;
            judge_index(alloc, items, scope, key, flags)?;
            flags.push(false)
        }
        Stmt::If { test, yes, no } => {
            flags.push(false)?;
            judge_expr(alloc, items, scope, test, flags)?;
            judge_block(alloc, items, scope, yes, flags)?;
            match no {
                Some(no) => {
                    flags.push(false)?;
                    judge_block(alloc, items, scope, no, flags)
                }
                None => Ok(()),
            }
        }
        Stmt::While { test, body } => {
            flags.push(false)?;
            judge_expr(alloc, items, scope, test, flags)?;
            judge_block(alloc, items, scope, body, flags)
        }
        Stmt::Return(value) | Stmt::Print(value) => {
            flags.push(false)?;
            judge_value(alloc, items, scope, value, flags)
        }
        Stmt::Try { body, name, caught } => {
            flags.push(false)?;
            judge_block(alloc, items, scope, body, flags)?;
            flags.push(false)?;
            judge_caught(alloc, items, scope, name, caught, flags)
        }
        Stmt::Plain(value) => judge_value(alloc, items, scope, value, flags),
    }
}

/// Judges the name after `catch`, and its block, in which the name is in scope.
#[cycle(statements)]
fn judge_caught(
    alloc: Global,
    items: &ItemNames,
    scope: &mut NameSet,
    name: &DynText,
    caught: &Block,
    flags: &mut Flags,
) -> Result<(), AllocError>
    ensures flags { OnOk result
        (flags.new ≡ flags.old ++ is_taken items.now scope.old name.now
        ∷ block_flags items.now (scope.old ++ name.now ∷ []) caught.now) }
    ensures scope { OnOk result (scope.new ≡ scope.old) }
{
    let outside = scope.len();
    flags.push(names_another(items, scope, name))?;
    scope.push(name)?;
    judge_block(alloc, items, scope, caught, flags)?;
    scope.truncate(outside);
    Ok(())
}

/// Judges an expression, and the semicolon that ends its statement.
fn judge_value(
    alloc: Global,
    items: &ItemNames,
    scope: &NameSet,
    value: &Expr,
    flags: &mut Flags,
) -> Result<(), AllocError>
    ensures { OnOk result (flags.new ≡ flags.old ++ value_flags items.now value.now scope.now) }
{
    judge_expr(alloc, items, scope, value, flags)?;
    flags.push(false)
}

/// Judges `=`, an expression, and the semicolon that ends its statement.
fn judge_assigned(
    alloc: Global,
    items: &ItemNames,
    scope: &NameSet,
    value: &Expr,
    flags: &mut Flags,
) -> Result<(), AllocError>
    ensures { OnOk result (flags.new ≡ flags.old ++ assigned_flags items.now value.now scope.now) }
{
    flags.push(false)?;
    judge_value(alloc, items, scope, value, flags)
}

/// Judges an expression between brackets.
fn judge_index(
    alloc: Global,
    items: &ItemNames,
    scope: &NameSet,
    key: &Expr,
    flags: &mut Flags,
) -> Result<(), AllocError>
    ensures { OnOk result (flags.new ≡ flags.old ++ index_flags items.now key.now scope.now) }
{
    flags.push(false)?;
    judge_expr(alloc, items, scope, key, flags)?;
    flags.push(false)
}
