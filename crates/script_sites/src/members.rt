ghost use Rattle.std.specs.Prelude.{◌≡◌, false, IfOk};
ghost use Rattle.standard_binders.specs.declared.binder.Binder.TheVariants as binder;

use dyn_value::DynText;
use standard_binders::Binder;
use std::alloc::AllocError;

/// The binder that reads the member of this name.
pub(crate) fn get_member(name: &DynText) -> Result<Binder, AllocError>
    ensures { IfOk result (λ b. b ≡ binder.GetMember name.now false) }
{
    Ok(Binder::GetMember {
        name: name.copy()?,
        ignore_case: false,
    })
}

/// The binder that writes the member of this name.
pub(crate) fn set_member(name: &DynText) -> Result<Binder, AllocError>
    ensures { IfOk result (λ b. b ≡ binder.SetMember name.now false) }
{
    Ok(Binder::SetMember {
        name: name.copy()?,
        ignore_case: false,
    })
}

/// The binder that removes the member of this name.
pub(crate) fn delete_member(name: &DynText) -> Result<Binder, AllocError>
    ensures { IfOk result (λ b. b ≡ binder.DeleteMember name.now false) }
{
    Ok(Binder::DeleteMember {
        name: name.copy()?,
        ignore_case: false,
    })
}
