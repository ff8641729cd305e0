ghost use Rattle.std.specs.Prelude.{◌≡◌, ◌+◌, length, IfOk, OnOk};
ghost use Rattle.script_sites.specs.Sites.{expr_sites, sites_of_head, sites_of_suffix};
ghost use Rattle.task_compile.specs.Compiled.{AreArgs, AreSuffixes, IsHead, IsNode, IsSuffix, IsUnary};

use crate::names::{Scope, compile_name};
use crate::operands::{literal_text, new_site};
use dyn_value::Value;
use script_grammar::{Arg, Expr, Head, Suffix};
use sqlite_items::{Boxed, Items};
use std::alloc::{AllocError, Global};
use task_code::{Node, NodeHead, NodeSuffix};

/// The code of an expression, whose sites are numbered from `site` on.
#[cycle(expression)]
pub(crate) fn compile_expr(
    alloc: Global,
    scope: &Scope,
    site: &mut u32,
    expr: &Expr,
) -> Result<Node, AllocError>
    ensures code { IfOk result (λ node. IsNode scope.now.items scope.now.locals site.old expr.now node) }
    ensures sites { OnOk result (site.new ≡ site.old + length (expr_sites expr.now)) }
{
    let head = compile_head(alloc, scope, site, &expr.head)?;
    let suffixes = compile_suffixes(alloc, scope, site, expr.suffixes.as_slice())?;
    Ok(Node { head, suffixes })
}

/// The code of what an expression begins with.
#[cycle(expression)]
fn compile_head(
    alloc: Global,
    scope: &Scope,
    site: &mut u32,
    head: &Head,
) -> Result<NodeHead, AllocError>
    ensures code { IfOk result (λ node. IsHead scope.now.items scope.now.locals site.old head.now node) }
    ensures sites { OnOk result (site.new ≡ site.old + length (sites_of_head head.now)) }
{
    match head {
        Head::Int(number) => Ok(NodeHead::Literal(Value::Int(*number))),
        Head::Text(text) => Ok(NodeHead::Literal(Value::Text(literal_text(text)?))),
        Head::Nil => Ok(NodeHead::Literal(Value::Nil)),
        Head::True => Ok(NodeHead::Literal(Value::Bool(true))),
        Head::False => Ok(NodeHead::Literal(Value::Bool(false))),
        Head::Name(name) => compile_name(scope, name),
        Head::Unary { value, .. } => compile_unary(alloc, scope, site, value.get()),
        Head::Binary { left, right, .. } => {
            let left = compile_expr(alloc, scope, site, left.get())?;
            let number = new_site(site)?;
            let right = compile_expr(alloc, scope, site, right.get())?;
            Ok(NodeHead::Binary {
                site: number,
                left: Boxed::new(alloc, left)?,
                right: Boxed::new(alloc, right)?,
            })
        }
        Head::New => Ok(NodeHead::New),
        Head::NewOf { target, args } => {
            let number = new_site(site)?;
            let target = compile_expr(alloc, scope, site, target.get())?;
            let args = compile_args(alloc, scope, site, args.as_slice())?;
            Ok(NodeHead::NewOf {
                site: number,
                target: Boxed::new(alloc, target)?,
                args,
            })
        }
        Head::Convert { value, .. } => compile_unary(alloc, scope, site, value.get()),
    }
}

/// The code of an operation of one operand, which stands before the sites of its operand.
#[cycle(expression)]
fn compile_unary(
    alloc: Global,
    scope: &Scope,
    site: &mut u32,
    operand: &Expr,
) -> Result<NodeHead, AllocError>
    ensures code { IfOk result (λ head. IsUnary scope.now.items scope.now.locals site.old operand.now head) }
    ensures sites { OnOk result (site.new ≡ site.old + 1 + length (expr_sites operand.now)) }
{
    let number = new_site(site)?;
    let value = compile_expr(alloc, scope, site, operand)?;
    Ok(NodeHead::Unary {
        site: number,
        value: Boxed::new(alloc, value)?,
    })
}

/// The code of the values of arguments, in order.
#[cycle(expression)]
fn compile_args(
    alloc: Global,
    scope: &Scope,
    site: &mut u32,
    args: &[Arg],
) -> Result<Items<Node>, AllocError>
    ensures { IfOk result (λ nodes. AreArgs scope.now.items scope.now.locals site.old args.now nodes site.new) }
{
    let mut nodes = Items::new(alloc);
    for arg in args {
        nodes.push(compile_expr(alloc, scope, site, &arg.value)?)?;
    }
    Ok(nodes)
}

/// The code of suffixes, in order.
#[cycle(expression)]
fn compile_suffixes(
    alloc: Global,
    scope: &Scope,
    site: &mut u32,
    suffixes: &[Suffix],
) -> Result<Items<NodeSuffix>, AllocError>
    ensures { IfOk result (λ nodes. AreSuffixes scope.now.items scope.now.locals site.old suffixes.now nodes site.new) }
{
    let mut nodes = Items::new(alloc);
    for suffix in suffixes {
        nodes.push(compile_suffix(alloc, scope, site, suffix)?)?;
    }
    Ok(nodes)
}

/// The code of a suffix. A member call has its two sites before those of its arguments.
#[cycle(expression)]
fn compile_suffix(
    alloc: Global,
    scope: &Scope,
    site: &mut u32,
    suffix: &Suffix,
) -> Result<NodeSuffix, AllocError>
    ensures code { IfOk result (λ node. IsSuffix scope.now.items scope.now.locals site.old suffix.now node) }
    ensures sites { OnOk result (site.new ≡ site.old + length (sites_of_suffix suffix.now)) }
{
    let number = new_site(site)?;
    match suffix {
        Suffix::Member { .. } => Ok(NodeSuffix::Member { site: number }),
        Suffix::MemberCall { args, .. } => {
            new_site(site)?;
            let args = compile_args(alloc, scope, site, args.as_slice())?;
            Ok(NodeSuffix::MemberCall { site: number, args })
        }
        Suffix::Index(key) => {
            let key = compile_expr(alloc, scope, site, key)?;
            Ok(NodeSuffix::Index { site: number, key })
        }
        Suffix::Call(args) => {
            let args = compile_args(alloc, scope, site, args.as_slice())?;
            Ok(NodeSuffix::Call { site: number, args })
        }
    }
}
