ghost use Rattle.std.specs.Prelude.{◌≡◌, ◌++◌, map, OnOk};
ghost use Rattle.script_sites.specs.Calls.{checked};
ghost use Rattle.script_sites.specs.Sites.{argument, argument_sites, expr_sites, sites_of_head, sites_of_suffix};

use crate::calls::{create_instance, invoke, invoke_member};
use crate::members::get_member;
use script_grammar::{Arg, Expr, Head, Suffix};
use sqlite_items::Items;
use standard_binders::Binder;
use std::alloc::{AllocError, Global};

/// The binder of each site so far; `None` where no call has the arguments that stand there.
pub(crate) type Sites = Items<Option<Binder>>;

#[cycle(sites)]
#[tactic(auto, using(crate::proofs::SiteEquations::expression))]
pub(crate) fn add_expr_sites(
    alloc: Global,
    expr: &Expr,
    sites: &mut Sites,
) -> Result<(), AllocError>
    ensures { OnOk result (sites.new ≡ sites.old ++ map checked (expr_sites expr.now)) }
{
    add_head_sites(alloc, &expr.head, sites)?;
    for suffix in expr.suffixes.as_slice() {
        add_suffix_sites(alloc, suffix, sites)?;
    }
    Ok(())
}

#[cycle(sites)]
#[tactic(auto, using(crate::proofs::SiteEquations::creation, crate::proofs::SiteEquations::conversion))]
fn add_head_sites(alloc: Global, head: &Head, sites: &mut Sites) -> Result<(), AllocError>
    ensures { OnOk result (sites.new ≡ sites.old ++ map checked (sites_of_head head.now)) }
{
    match head {
        Head::Unary { op, value } => {
            sites.push(Some(Binder::UnaryOperation { op: *op }))?;
            add_expr_sites(alloc, value.get(), sites)
        }
        Head::Binary { op, left, right } => {
            add_expr_sites(alloc, left.get(), sites)?;
            sites.push(Some(Binder::BinaryOperation { op: *op }))?;
            add_expr_sites(alloc, right.get(), sites)
        }
        Head::NewOf { target, args } => {
            sites.push(create_instance(alloc, args.as_slice())?)?;
            add_expr_sites(alloc, target.get(), sites)?;
            add_argument_sites(alloc, args.as_slice(), sites)?;
            Ok(())
        }
        Head::Convert { to, value } => {
            sites.push(Some(Binder::Convert { to: *to }))?;
            add_expr_sites(alloc, value.get(), sites)?;
            Ok(())
        }
        _ => Ok(()),
    }
}

#[cycle(sites)]
fn add_suffix_sites(alloc: Global, suffix: &Suffix, sites: &mut Sites) -> Result<(), AllocError>
    ensures { OnOk result (sites.new ≡ sites.old ++ map checked (sites_of_suffix suffix.now)) }
{
    match suffix {
        Suffix::Member { name } => sites.push(Some(get_member(name)?)),
        Suffix::MemberCall { name, args } => {
            sites.push(invoke_member(alloc, name, args.as_slice())?)?;
            sites.push(invoke(alloc, args.as_slice())?)?;
            add_argument_sites(alloc, args.as_slice(), sites)
        }
        Suffix::Index(key) => {
            sites.push(Some(Binder::GetIndex))?;
            add_expr_sites(alloc, key, sites)
        }
        Suffix::Call(args) => {
            sites.push(invoke(alloc, args.as_slice())?)?;
            add_argument_sites(alloc, args.as_slice(), sites)
        }
    }
}

#[cycle(sites)]
#[tactic(auto, using(crate::proofs::ArgumentSites::sites_are))]
fn add_argument_sites(alloc: Global, args: &[Arg], sites: &mut Sites) -> Result<(), AllocError>
    ensures { OnOk result (sites.new ≡ sites.old ++ map checked (argument_sites (map argument args.now))) }
{
    for arg in args {
        add_expr_sites(alloc, &arg.value, sites)?;
    }
    Ok(())
}
