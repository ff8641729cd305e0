//! What rules are known of.
use binder_cache::Cache;
use expando_class::ClassTable;
use rule::Rule;
use standard_binders::{Binder, FunTable};
use std::snapshot::Snapshot;

/// The cache that holds the rules, their binder, and the functions and the table by which their claims hold. It takes
/// no memory.
#[derive(Drop)]
pub(crate) struct Snapshots {
    cache: Snapshot<Cache<Rule>>,
    binder: Snapshot<Binder>,
    funs: Snapshot<FunTable>,
    table: Snapshot<ClassTable>,
}

impl Snapshots {
    ghost use Rattle.std.specs.Prelude.{◌≡◌};
    ghost use Rattle.known_rules.specs.Adoptions.{setting, setting_in};

    /// Of these.
    pub(crate) fn of(
        cache: &Cache<Rule>,
        binder: &Binder,
        funs: &FunTable,
        table: &ClassTable,
    ) -> Snapshots
        ensures { setting_in result ≡ setting cache.now binder.now funs.now.params table.now }
    {
        Snapshots {
            cache: Snapshot::of(cache),
            binder: Snapshot::of(binder),
            funs: Snapshot::of(funs),
            table: Snapshot::of(table),
        }
    }
}
