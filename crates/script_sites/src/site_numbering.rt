ghost use Rattle.std.specs.Prelude.{◌≡◌, false, true, map, IfOk, IsErrOf, MatchOption, OnOk, Some, is_some};
ghost use Rattle.std.specs.List.{list_all};
ghost use Rattle.script_sites.specs.Calls.{has_distinct_names};
ghost use Rattle.script_sites.specs.declared.limits.What.{What};
ghost use Rattle.script_sites.specs.declared.limits.What.TheVariants as what;
ghost use Rattle.script_sites.specs.Limits.{is_within, IsTooMany, IsWithinLimits};
ghost use Rattle.script_sites.specs.Numbering.{IsNumbering};
ghost use Rattle.script_sites.specs.Sites.{site_binders, function_starts, task_starts};

use crate::items::{ScriptSites, script_sites};
use crate::limits::{MOST_BINDERS, MOST_SITES, What, declared_too_many};
use crate::locals::{have_functions_few_locals, have_tasks_few_locals};
use crate::numbering::{SiteNumbers, numbered};
use script_grammar::Script;
use sqlite_items::Items;
use standard_binders::Binder;
use std::alloc::{AllocError, Global};
use thiserror::Error;

/// The sites of a script, numbered in the order of their tokens, and their binders, numbered in the order of
/// their first sites.
#[derive(Debug, Drop)]
pub struct Numbering {
    /// For each site the number of its binder.
    pub sites: Items<u32>,
    /// The distinct binders.
    pub binders: Items<Binder>,
    /// For each function how many sites stand before it, which is the number of its first one.
    pub function_starts: Items<usize>,
    /// For each task how many sites stand before it, which is the number of its first one.
    pub task_starts: Items<usize>,
}

/// Why a script has no numbering.
#[derive(Debug, Drop, Error)]
pub enum LimitFault {
    /// There are more of these than a script may have.
    #[error("the script passes a limit")]
    TooMany(What),
    /// Memory was refused.
    #[error("out of memory")]
    Memory,
}

impl From<AllocError> for LimitFault {
    ghost use Rattle.std.specs.Prelude.{◌≡◌};
    ghost use Rattle.script_sites.specs.declared.site_numbering.LimitFault.TheVariants as limit_fault;

    ghost from_gives = { λ _ e. e ≡ limit_fault.Memory };

    fn from(_error: AllocError) -> LimitFault {
        LimitFault::Memory
    }
}

/// The numbers of a script's sites and binders, where it is within all limits.
///
/// The arguments of no call repeat a name, as in each script whose names keep the rules.
///
/// The error is [`LimitFault::TooMany`] exactly where a limit is passed, with the first one in the order of
/// [`What`], and [`LimitFault::Memory`] where memory is refused.
pub fn number_sites(alloc: Global, script: &Script) -> Result<Numbering, LimitFault>
    requires distinct { list_all has_distinct_names (site_binders script.now) ≡ true }
    ensures numbering { IfOk result (λ n. IsNumbering (site_binders script.now) n.sites n.binders) }
    ensures functions { IfOk result (λ n. n.function_starts ≡ function_starts script.now) }
    ensures tasks { IfOk result (λ n. n.task_starts ≡ task_starts script.now) }
    ensures limits { OnOk result (IsWithinLimits script.now) }
    ensures refused { (what : What) → IsErrOf result (LimitFault.TooMany what) → IsTooMany script.now what }
{
    if let Some(what) = declared_too_many(script) {
        return Err(LimitFault::TooMany(what));
    }
    let ScriptSites {
        sites,
        function_starts,
        task_starts,
    } = script_sites(alloc, script)?;
    let Some(at_sites) = all_of(alloc, sites.as_slice())? else {
        return Err(LimitFault::TooMany(What::Arguments));
    };
    if !have_few_locals(script) {
        return Err(LimitFault::TooMany(What::Locals));
    }
    if at_sites.len() > MOST_SITES {
        return Err(LimitFault::TooMany(What::Sites));
    }
    let SiteNumbers { sites, binders } = numbered(alloc, at_sites.as_slice())?;
    if binders.len() > MOST_BINDERS {
        return Err(LimitFault::TooMany(What::Binders));
    }
    Ok(Numbering {
        sites,
        binders,
        function_starts,
        task_starts,
    })
}

/// Whether no function and no task has more locals than it may.
fn have_few_locals(script: &Script) -> bool
    ensures { result ≡ is_within what.Locals script.now }
{
    have_functions_few_locals(script.functions.as_slice())
        && have_tasks_few_locals(script.tasks.as_slice())
}

/// The binders of all sites, where each site has one.
fn all_of(alloc: Global, sites: &[Option<Binder>]) -> Result<Option<Items<Binder>>, AllocError>
    ensures { IfOk result (λ o.
        MatchOption o (list_all is_some sites.now ≡ false) (λ all. map Some all ≡ sites.now)) }
{
    let mut all = Items::new(alloc);
    for site in sites {
        match site {
            None => return Ok(None),
            Some(binder) => all.push(binder.copy()?)?,
        }
    }
    Ok(Some(all))
}
