ghost use Rattle.std.specs.Prelude.{◌≡◌, ◌<◌, length};
ghost use Rattle.task_code.specs.Codes.{binder_at, info_at};
ghost use Rattle.standard_binders.specs.Binders.{operand_count_of};
ghost use Rattle.task_code.specs.Fits.{IsSite};
ghost use Rattle.task_walk.specs.Plans.{plan_of};

use dyn_value::DynText;
use standard_binders::Binder;
use task_code::FunctionCode;

/// Resolved code: what its sites stand for, and its functions.
#[derive(Clone, Copy, Debug)]
pub struct Code<'a> {
    /// The distinct binders.
    pub binders: &'a [Binder],
    /// For each site the number of its binder.
    pub sites: &'a [u32],
    pub functions: &'a [FunctionCode],
}

impl Code<'_> {
    /// The binder of a site.
    pub fn binder_of(&self, site: u32) -> &Binder
        requires { IsSite (plan_of self.now) site (operand_count_of (binder_at (plan_of self.now) site)) }
        ensures { result.now ≡ binder_at (plan_of self.now) site }
    {
        &self.binders[self.sites[site as usize] as usize]
    }

    /// The names of the named arguments of a call at a site.
    pub fn names_of(&self, site: u32) -> &[DynText]
        requires { IsSite (plan_of self.now) site (operand_count_of (binder_at (plan_of self.now) site)) }
        ensures { result.now ≡ (info_at (plan_of self.now) site).names }
    {
        match self.binder_of(site) {
            Binder::Invoke { info }
            | Binder::InvokeMember { info, .. }
            | Binder::CreateInstance { info } => info.names(),
            _ => &[],
        }
    }
}
