ghost use Rattle.std.specs.Prelude.{◌≡◌, false, ◌++◌, [], map, IfOk, OnOk};
ghost use Rattle.std.specs.List.{cons_option};
ghost use Rattle.standard_binders.specs.declared.binder.Binder.TheVariants as binder;
ghost use Rattle.script_sites.specs.Calls.{IsCall, checked};
ghost use Rattle.script_sites.specs.Sites.{argument, call_info};

use dyn_value::DynText;
use script_grammar::Arg;
use standard_binders::{Binder, CallInfo};
use std::alloc::{AllocError, Global};

/// The binder of a call with these arguments; `None` where no call has them.
pub(crate) fn invoke(alloc: Global, args: &[Arg]) -> Result<Option<Binder>, AllocError>
    ensures { IfOk result (λ b. b ≡ checked (binder.Invoke (call_info (map argument args.now)))) }
{
    match call_of(alloc, args)? {
        Some(info) => Ok(Some(Binder::Invoke { info })),
        None => Ok(None),
    }
}

/// The binder of a member call with these arguments; `None` where no call has them.
pub(crate) fn invoke_member(
    alloc: Global,
    name: &DynText,
    args: &[Arg],
) -> Result<Option<Binder>, AllocError>
    ensures { IfOk result (λ b.
        b ≡ checked (binder.InvokeMember name.now false (call_info (map argument args.now)))) }
{
    match call_of(alloc, args)? {
        Some(info) => Ok(Some(Binder::InvokeMember {
            name: name.copy()?,
            ignore_case: false,
            info,
        })),
        None => Ok(None),
    }
}

/// The binder of `new` with these arguments after its target; `None` where no call has them.
pub(crate) fn create_instance(alloc: Global, args: &[Arg]) -> Result<Option<Binder>, AllocError>
    ensures { IfOk result (λ b. b ≡ checked (binder.CreateInstance (call_info (map argument args.now)))) }
{
    match call_of(alloc, args)? {
        Some(info) => Ok(Some(Binder::CreateInstance { info })),
        None => Ok(None),
    }
}

/// What a call with these arguments is handed; `None` exactly where they are more than 16, or a name stands
/// among them twice.
fn call_of(alloc: Global, args: &[Arg]) -> Result<Option<CallInfo>, AllocError>
    ensures { IfOk result (λ info. IsCall (call_info (map argument args.now)) info) }
{
    let names = argument_names(alloc, args)?;
    let Ok(count) = u32::try_from(args.len()) else {
        return Ok(None);
    };
    match CallInfo::make(count, names) {
        Ok(info) => Ok(Some(info)),
        Err(_names) => Ok(None),
    }
}

/// The names of the named arguments, in their order.
#[tactic(auto, using(crate::proofs::ArgumentSites::names_are, crate::proofs::ArgumentSites::one_more_name))]
fn argument_names(alloc: Global, args: &[Arg]) -> Result<Vec<DynText>, AllocError>
    ensures { IfOk result (λ names. names.items ≡ (call_info (map argument args.now)).names) }
{
    let mut names = Vec::new(alloc);
    for arg in args {
        add_name(arg, &mut names)?;
    }
    Ok(names)
}

/// Adds the name of the argument, if it has one.
fn add_name(arg: &Arg, names: &mut Vec<DynText>) -> Result<(), AllocError>
    ensures { OnOk result (names.new.items ≡ names.old.items ++ cons_option arg.now.name []) }
{
    match &arg.name {
        Some(name) => {
            names.push(name.copy()?)?;
            Ok(())
        }
        None => Ok(()),
    }
}
