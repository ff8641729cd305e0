//! What a run and its passes are made of.
ghost use Rattle.std.specs.Prelude.{◌≡◌, [], length, All, IfOk};
ghost use Rattle.object_history.specs.Histories.{mark_of, tag_with, turns_of, whole_tag_of};
ghost use Rattle.object_history.specs.Rows.{journal_of};
ghost use Rattle.dlr_engine.specs.Knowing.{KnowsEach, KnowsNone};

use binder_cache::Cache;
use expando_class::ClassTable;
use known_rules::KnownRules;
use object_history::{ObjectRow, RowTag};
use rule::Rule;
use standard_binders::{Binder, FunTable};
use std::alloc::{AllocError, Global};

/// So many caches without rules.
pub(crate) fn new_caches(alloc: Global, count: usize) -> Result<Vec<Cache<Rule>>, AllocError>
    ensures { IfOk result (λ v. length v.items ≡ count) }
{
    let mut caches = Vec::with_capacity(alloc, count)?;
    for _cache in 0..count {
        caches.push(Cache::new(alloc)?)?;
    }
    Ok(caches)
}

/// What is known of the rules of each binder: none is.
pub(crate) fn none_known(
    alloc: Global,
    caches: &[Cache<Rule>],
    binders: &[Binder],
    funs: &FunTable,
    table: &ClassTable,
) -> Result<Vec<KnownRules>, AllocError>
    requires { length caches.now ≡ length binders.now }
    ensures each { IfOk result (λ v. KnowsEach caches.now binders.now funs.now.params table.now v.items) }
    ensures none { IfOk result (λ v. KnowsNone v.items) }
{
    let mut known = Vec::with_capacity(alloc, binders.len())?;
    for number in 0..binders.len() {
        let none = KnownRules::new(alloc, &caches[number], &binders[number], funs, table)?;
        known.push(none)?;
    }
    Ok(known)
}

/// The number of the root's class, for each of so many objects.
pub(crate) fn root_classes(alloc: Global, count: u32) -> Result<Vec<u128>, AllocError>
    ensures { IfOk result (λ v. length v.items ≡ count) }
{
    let mut classes = Vec::with_capacity(alloc, count as usize)?;
    for _object in 0..count {
        classes.push(0)?;
    }
    Ok(classes)
}

/// So many objects on which nothing was done.
pub(crate) fn new_rows<'p>(
    alloc: Global,
    tag: RowTag<'p>,
    table: &ClassTable,
    count: usize,
) -> Result<Vec<ObjectRow<'p>>, AllocError>
    ensures count { IfOk result (λ v. length v.items ≡ count) }
    ensures new { IfOk result (λ v. All (λ y. (journal_of y ≡ []) × (turns_of y ≡ 0) × (mark_of y ≡ 0)) v.items) }
    ensures tag { IfOk result (λ v. All (λ y. whole_tag_of y ≡ tag_with tag.entry table.now) v.items) }
{
    let mut rows = Vec::with_capacity(alloc, count)?;
    for _row in 0..count {
        rows.push_reserved(new_row(alloc, tag, table));
    }
    Ok(rows)
}

/// An object on which nothing was done.
fn new_row<'p>(alloc: Global, tag: RowTag<'p>, table: &ClassTable) -> ObjectRow<'p>
    ensures new { (journal_of result ≡ []) × (turns_of result ≡ 0) × (mark_of result ≡ 0) }
    ensures tag { whole_tag_of result ≡ tag_with tag.entry table.now }
{
    ObjectRow::new(alloc, tag, table)
}
