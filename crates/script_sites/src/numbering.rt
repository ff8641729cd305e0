ghost use Rattle.std.specs.Prelude.{◌≡◌, ◌≢◌, ◌≤◌, ℕ, Some, IfOk, MatchOption, length, slice_get};
ghost use Rattle.script_sites.specs.Numbering.{IsNumbering, IsNumberOf};

use sqlite_items::Items;
use standard_binders::Binder;
use std::alloc::{AllocError, Global};

/// For each site the number of its binder, and the distinct binders in the order of their first sites.
#[derive(Debug, Drop)]
pub(crate) struct SiteNumbers {
    pub(crate) sites: Items<u32>,
    pub(crate) binders: Items<Binder>,
}

/// Numbers the binders of these sites.
pub(crate) fn numbered(alloc: Global, at_sites: &[Binder]) -> Result<SiteNumbers, AllocError>
    requires { length at_sites.now ≤ 4096 }
    ensures { IfOk result (λ n. IsNumbering at_sites.now n.sites n.binders) }
{
    let mut sites = Items::new(alloc);
    let mut binders: Items<Binder> = Items::new(alloc);
    for binder in at_sites {
        let number = number_of(&mut binders, binder)?;
        sites.push(number as u32)?;
    }
    Ok(SiteNumbers { sites, binders })
}

/// The number of the binder, which is added where it is not one of them yet.
fn number_of(binders: &mut Items<Binder>, binder: &Binder) -> Result<usize, AllocError>
    ensures { IfOk result (λ n. IsNumberOf binder.now binders.old binders.new n) }
{
    match place_of(binders.as_slice(), binder) {
        Some(place) => Ok(place),
        None => {
            let number = binders.len();
            binders.push(binder.copy()?)?;
            Ok(number)
        }
    }
}

/// The place of the binder among the binders, if it is one of them.
fn place_of(binders: &[Binder], binder: &Binder) -> Option<usize>
    ensures { MatchOption result
        ((k : ℕ) → slice_get binders.now k ≢ Some binder.now)
        (λ k. slice_get binders.now k ≡ Some binder.now) }
{
    for (place, known) in binders.iter().enumerate() {
        if known.same(binder) {
            return Some(place);
        }
    }
    None
}
