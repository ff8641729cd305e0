ghost use Rattle.std.specs.Prelude.{◌≡◌, [], ◌∷◌, ◌++◌, false, OnOk};
ghost use Rattle.script_names.specs.Names.{comma_flags, row_after, with_name};
ghost use Rattle.script_names.specs.Expressions.{args_flags, arguments, expr_flags, flags_of_head, flags_of_suffix, named_flags};

use crate::item_names::{ItemNames, names_a_value};
use crate::name_set::NameSet;
use script_grammar::{Arg, Expr, Head, Suffix};
use sqlite_items::Items;
use std::alloc::{AllocError, Global};

/// For each token so far, whether it is a name that breaks a rule.
pub(crate) type Flags = Items<bool>;

/// Judges the tokens of the expression.
#[cycle(expressions)]
pub(crate) fn judge_expr(
    alloc: Global,
    items: &ItemNames,
    scope: &NameSet,
    expr: &Expr,
    flags: &mut Flags,
) -> Result<(), AllocError>
    ensures { OnOk result (flags.new ≡ flags.old ++ expr_flags items.now scope.now expr.now) }
{
    judge_head(alloc, items, scope, &expr.head, flags)?;
    for suffix in expr.suffixes.as_slice() {
        judge_suffix(alloc, items, scope, suffix, flags)?;
    }
    Ok(())
}

#[cycle(expressions)]
fn judge_head(
    alloc: Global,
    items: &ItemNames,
    scope: &NameSet,
    head: &Head,
    flags: &mut Flags,
) -> Result<(), AllocError>
    ensures { OnOk result (flags.new ≡ flags.old ++ flags_of_head items.now scope.now head.now) }
{
    match head {
        Head::Int(_) | Head::Text(_) | Head::Nil | Head::True | Head::False => flags.push(false),
        Head::Name(name) => flags.push(!names_a_value(items, scope, name)),
        Head::Unary { value, .. } | Head::Convert { value, .. } => {
            pass_two(flags)?;
            judge_expr(alloc, items, scope, value.get(), flags)?;
            flags.push(false)
        }
        Head::Binary { left, right, .. } => {
            flags.push(false)?;
            judge_expr(alloc, items, scope, left.get(), flags)?;
            flags.push(false)?;
            judge_expr(alloc, items, scope, right.get(), flags)?;
            flags.push(false)
        }
        Head::New => {
            pass_two(flags)?;
            flags.push(false)
        }
        Head::NewOf { target, args } => {
            pass_two(flags)?;
            judge_expr(alloc, items, scope, target.get(), flags)?;
            judge_arguments(alloc, items, scope, args.as_slice(), true, flags)
        }
    }
}

#[cycle(expressions)]
fn judge_suffix(
    alloc: Global,
    items: &ItemNames,
    scope: &NameSet,
    suffix: &Suffix,
    flags: &mut Flags,
) -> Result<(), AllocError>
    ensures { OnOk result (flags.new ≡ flags.old ++ flags_of_suffix items.now scope.now suffix.now) }
{
    match suffix {
        Suffix::Member { .. } => pass_two(flags),
        Suffix::MemberCall { args, .. } => {
            pass_two(flags)?;
            flags.push(false)?;
            judge_arguments(alloc, items, scope, args.as_slice(), false, flags)
        }
        Suffix::Index(key) => {
            flags.push(false)?;
            judge_expr(alloc, items, scope, key, flags)?;
            flags.push(false)
        }
        Suffix::Call(args) => {
            flags.push(false)?;
            judge_arguments(alloc, items, scope, args.as_slice(), false, flags)
        }
    }
}

/// Judges the arguments of one list, where they stand after another part of its row or begin it: with the commas
/// between the parts and the parenthesis that closes the row.
#[cycle(expressions)]
#[tactic(auto, using(crate::proofs::Arguments::one_argument))]
fn judge_arguments(
    alloc: Global,
    items: &ItemNames,
    scope: &NameSet,
    args: &[Arg],
    after_another: bool,
    flags: &mut Flags,
) -> Result<(), AllocError>
    ensures { OnOk result
        (flags.new ≡ flags.old ++ row_after after_another (args_flags [] (arguments items.now scope.now args.now))) }
{
    let mut earlier = NameSet::new(alloc);
    let mut comma = after_another;
    for arg in args {
        pass_comma(comma, flags)?;
        judge_argument(alloc, items, scope, arg, &mut earlier, flags)?;
        comma = true;
    }
    flags.push(false)
}

/// Judges an argument after those with the earlier names, and adds its name to them.
#[cycle(expressions)]
fn judge_argument(
    alloc: Global,
    items: &ItemNames,
    scope: &NameSet,
    arg: &Arg,
    earlier: &mut NameSet,
    flags: &mut Flags,
) -> Result<(), AllocError>
    ensures flags { OnOk result
        (flags.new ≡ flags.old ++ named_flags earlier.old arg.now.name (expr_flags items.now scope.now arg.now.value)) }
    ensures earlier { OnOk result (earlier.new ≡ with_name earlier.old arg.now.name) }
{
    if let Some(name) = &arg.name {
        flags.push(earlier.contains(name))?;
        flags.push(false)?;
        earlier.push(name)?;
    }
    judge_expr(alloc, items, scope, &arg.value, flags)
}

/// Adds two tokens that keep the rules.
pub(crate) fn pass_two(flags: &mut Flags) -> Result<(), AllocError>
    ensures { OnOk result (flags.new ≡ flags.old ++ false ∷ false ∷ []) }
{
    flags.push(false)?;
    flags.push(false)
}

/// Adds the comma between two parts, where there is one.
pub(crate) fn pass_comma(comma: bool, flags: &mut Flags) -> Result<(), AllocError>
    ensures { OnOk result (flags.new ≡ flags.old ++ comma_flags comma) }
{
    if comma {
        flags.push(false)?;
    }
    Ok(())
}
