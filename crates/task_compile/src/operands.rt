ghost use Rattle.std.specs.Prelude.{◌≡◌, ◌+◌, IfOk, OnOk};
ghost use Rattle.dyn_value.specs.Proper.{IsText};

use dyn_value::DynText;
use std::alloc::AllocError;

/// The number of the next site; more sites than numbers find no memory.
pub(crate) fn new_site(site: &mut u32) -> Result<u32, AllocError>
    ensures number { IfOk result (λ n. n ≡ site.old) }
    ensures next { OnOk result (site.new ≡ site.old + 1) }
{
    let number = *site;
    match number.checked_add(1) {
        Some(next) => {
            *site = next;
            Ok(number)
        }
        None => Err(AllocError),
    }
}

/// The text of a literal.
pub(crate) fn literal_text(text: &DynText) -> Result<DynText, AllocError>
    ensures same { IfOk result (λ t. t ≡ text.now) }
    ensures proper { IsText text.now }
{
    let _characters = text.as_str();
    text.copy()
}
