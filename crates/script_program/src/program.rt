ghost use Rattle.script_program.specs.Built.{IsBuilt};

use crate::parameters::parameter_names;
use dyn_value::DynText;
use script_grammar::{Function, Item, Script, Task};
use script_sites::Numbering;
use standard_binders::{Binder, FunTable};
use std::alloc::{AllocError, Global};

/// A script that was read: its tree, its sites with the numbers of their binders, and these binders.
///
/// Sites are numbered in the order of their tokens, and distinct binders in the order of their first sites. That the
/// tree can be written, that its names keep the rules, that it is within all limits, and that sites and binders are
/// those of the tree is a part of the type. [`read`](crate::read) alone makes one.
#[derive(Debug, Drop)]
pub struct Program {
    script: Script,
    numbering: Numbering,
    ghost built: { IsBuilt script numbering },
}

impl Program {
    ghost use Rattle.std.specs.Prelude.{◌≡◌, ◌<◌, ◌≤◌, true, length, IfOk, Some, get_or, slice_get};
    ghost use Rattle.std.specs.List.{All, list_all};
    ghost use Rattle.standard_binders.specs.Functions.{HaveFewParameters};
    ghost use Rattle.script_sites.specs.Numbering.{IsNumbering};
    ghost use Rattle.script_sites.specs.Sites.{function_starts, site_binders, task_starts};
    ghost use Rattle.script_program.specs.Built.{IsBuilt};
    ghost use Rattle.script_program.specs.Names.{has_short_names};
    ghost use Rattle.script_program.specs.Programs.{binders_of, functions_of, numbering_of, script_of, sites_of};

    /// The program of a script and its numbering.
    pub(crate) fn of(script: Script, numbering: Numbering) -> Program
        requires built { IsBuilt script numbering }
        ensures script { script_of result ≡ script }
    {
        Program { script, numbering }
    }

    /// The script's tree.
    pub fn script(&self) -> &Script
        ensures script { result.now ≡ script_of self.now }
        ensures built { IsBuilt result.now (numbering_of self.now) }
    {
        &self.script
    }

    /// The numbers of its sites and binders.
    pub fn numbering(&self) -> &Numbering
        ensures numbering { result.now ≡ numbering_of self.now }
        ensures built { IsBuilt (script_of self.now) result.now }
    {
        &self.numbering
    }

    /// The items, in script order. The number of one is its place among those of its kind.
    pub fn items(&self) -> &[Item]
        ensures { result.now ≡ (script_of self.now).items }
    {
        self.script.items.as_slice()
    }

    /// The shared names, in script order: at most 64.
    pub fn shared(&self) -> &[DynText]
        ensures shared { result.now ≡ (script_of self.now).shared }
        ensures few { length result.now ≤ 64 }
    {
        self.script.shared.as_slice()
    }

    /// The functions, in script order: at most 256.
    pub fn functions(&self) -> &[Function]
        ensures functions { result.now ≡ (script_of self.now).functions }
        ensures few { length result.now ≤ 256 }
    {
        self.script.functions.as_slice()
    }

    /// The tasks, in script order: at most 8.
    pub fn tasks(&self) -> &[Task]
        ensures tasks { result.now ≡ (script_of self.now).tasks }
        ensures few { length result.now ≤ 8 }
    {
        self.script.tasks.as_slice()
    }

    /// For each site the number of its binder: at most 4,096 sites.
    pub fn sites(&self) -> &[u32]
        ensures sites { result.now ≡ sites_of self.now }
        ensures numbering { IsNumbering (site_binders (script_of self.now)) result.now (binders_of self.now) }
        ensures count { length result.now ≡ length (site_binders (script_of self.now)) }
        ensures few { length result.now ≤ 4096 }
        ensures within { All (λ n. n < length (binders_of self.now)) result.now }
    {
        self.numbering.sites.as_slice()
    }

    /// The distinct binders, no more than there are sites. The names that they carry have at most 64 bytes.
    pub fn binders(&self) -> &[Binder]
        ensures binders { result.now ≡ binders_of self.now }
        ensures few { length result.now ≤ 4096 }
        ensures short_names { list_all has_short_names result.now ≡ true }
    {
        self.numbering.binders.as_slice()
    }

    /// The binder of a site. The names that it carries have at most 64 bytes.
    pub fn binder_of(&self, site: u32) -> &Binder
        requires { site < length (site_binders (script_of self.now)) }
        ensures binder { slice_get (site_binders (script_of self.now)) site ≡ Some result.now }
        ensures number { slice_get (binders_of self.now) (get_or (sites_of self.now) site 0) ≡ Some result.now }
        ensures short_names { has_short_names result.now ≡ true }
    {
        let number = self.sites()[site as usize];
        &self.binders()[number as usize]
    }

    /// For each function how many sites stand before it, which is the number of its first one.
    pub fn function_starts(&self) -> &[usize]
        ensures { result.now ≡ function_starts (script_of self.now) }
    {
        self.numbering.function_starts.as_slice()
    }

    /// For each task how many sites stand before it, which is the number of its first one.
    pub fn task_starts(&self) -> &[usize]
        ensures { result.now ≡ task_starts (script_of self.now) }
    {
        self.numbering.task_starts.as_slice()
    }

    /// The names of the functions' parameters, at most 16 each. The one error is want of memory.
    pub fn fun_table(&self, alloc: Global) -> Result<FunTable, AllocError>
        ensures table { IfOk result (λ table. table.params ≡ functions_of self.now) }
        ensures few { IfOk result (λ table. HaveFewParameters table.params) }
    {
        let params = parameter_names(alloc, self.functions())?;
        Ok(FunTable { params })
    }
}
