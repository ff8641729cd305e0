//! How an operation on an object is made in a turn.
ghost use Rattle.std.specs.Prelude.{◌≡◌, ◌<◌, ◌^◌, length, slice_get, Some, IfOk, IfSome, OnErr};
ghost use Rattle.expando_object.specs.State.{class_in};
ghost use Rattle.standard_binders.specs.Functions.{Functions, HaveFewParameters};
ghost use Rattle.object_history.specs.Histories.{mark_of};
ghost use Rattle.object_history.specs.Rows.{idles_of, journal_of, state_in, table_of, tag_of};
ghost use Rattle.rule.specs.Rules.{binder_of};
ghost use Rattle.known_rules.specs.Adoptions.{setting};
ghost use Rattle.known_rules.specs.Guarding.{FitsClass};
ghost use Rattle.known_rules.specs.Knowledge.{IsChosen, published_in, rules_in, setting_of};
ghost use Rattle.dlr_engine.specs.declared.answer.Level.TheVariants.{Bind};
ghost use Rattle.dlr_engine.specs.Knowing.{level_of, ComesToKnow, IsChosenFor, IsOwnRule};
ghost use Rattle.dlr_engine.specs.Minds.{binds_in, table_in, MayHaveBound};
ghost use Rattle.dlr_engine.specs.Makings.{Makes};
ghost use Rattle.dlr_engine.specs.Operations.{BindsAt};
ghost use Rattle.dlr_engine.specs.Tagged.{AreProperBy};

use crate::binding::show_proper_content;
use crate::choosing::{Choice, choose};
use crate::mind::Mind;
use crate::operation::{Done, Made, Operation};
use binder_cache::Cache;
use expando_class::{ClassRef, ClassTable};
use known_rules::{Fitting, KnownRules, agree};
use meta_object::Language;
use object_history::ObjectRow;
use rule::Rule;
use std::alloc::{AllocError, Global};
use std::sync::Wait;

/// Makes the operation by a rule that fits the object, with the class after that it names: its entry is added. Where
/// memory is refused, members and journal stay.
fn make(
    alloc: Global,
    rule: &Rule,
    after: Option<ClassRef>,
    operation: &Operation<'_>,
    row: &mut ObjectRow<'_>,
) -> Result<Made, AllocError>
    requires binder { binder_of rule.now ≡ operation.now.binder.now }
    requires fits { FitsClass rule.now operation.now.operands.now (table_of row.old) (class_in (state_in row.old)) after }
    requires number { slice_get (tag_of row.old).binders.now operation.now.head.binder ≡ Some operation.now.binder.now }
    requires proper { AreProperBy (tag_of row.old) operation.now.operands.now }
    ensures made { IfOk result (Makes operation.now row.old row.new) }
    ensures refused { OnErr result (journal_of row.new ≡ journal_of row.old) }
    ensures idles { idles_of row.new ≡ idles_of row.old }
    ensures tag { tag_of row.new ≡ tag_of row.old }
    ensures row_table { table_of row.new ≡ table_of row.old }
{
    // Its members are distinct.
    row.state();
    let place = row.entry_count() as u64;
    let ready = row.prepare(alloc, rule.body(), operation.head, operation.operands)?;
    let outcome = row.commit(rule, ready, after);
    show_proper_content(&outcome);
    Ok(Made { outcome, place })
}

/// Makes the operation by the known rule of an index, which passes on the object as it stands.
fn make_known(
    alloc: Global,
    known: &KnownRules,
    cache: &Cache<Rule>,
    table: &ClassTable,
    index: u64,
    operation: &Operation<'_>,
    row: &mut ObjectRow<'_>,
) -> Result<Made, AllocError>
    requires setting { (functions : Functions)
        × (setting_of known.now ≡ setting cache.now operation.now.binder.now functions table.now) }
    requires chosen { IsChosen (rules_in known.now) operation.now.operands.now (mark_of row.old) (Some index) }
    requires own { table_of row.old ≡ table.now }
    requires number { slice_get (tag_of row.old).binders.now operation.now.head.binder ≡ Some operation.now.binder.now }
    requires proper { AreProperBy (tag_of row.old) operation.now.operands.now }
    ensures made { IfOk result (Makes operation.now row.old row.new) }
    ensures refused { OnErr result (journal_of row.new ≡ journal_of row.old) }
    ensures idles { idles_of row.new ≡ idles_of row.old }
    ensures tag { tag_of row.new ≡ tag_of row.old }
    ensures row_table { table_of row.new ≡ table_of row.old }
{
    let Fitting { rule, after } = known.fitting(
        cache,
        index,
        table,
        operation.operands,
        row.state().class(),
    );
    make(alloc, rule, after, operation, row)
}

/// Binds the operation on the object as it stands, and makes it by the rule that was bound.
fn bind_and_make<L: Language, R: Wait>(
    rt: &R,
    alloc: Global,
    lang: &L,
    mind: &mut Mind,
    table: &ClassTable,
    operation: &Operation<'_>,
    row: &mut ObjectRow<'_>,
) -> Result<Done, AllocError>
    requires known { table_in mind.old ≡ table.now }
    requires few_binds { binds_in mind.old < 2 ^ 60 }
    requires few { HaveFewParameters (L.functions lang.now) }
    requires own { table_of row.old ≡ table.now }
    requires functions { (tag_of row.old).functions ≡ length (L.functions lang.now) }
    requires number { slice_get (tag_of row.old).binders.now operation.now.head.binder ≡ Some operation.now.binder.now }
    requires proper { AreProperBy (tag_of row.old) operation.now.operands.now }
    ensures made { IfOk result (λ d. Makes operation.now row.old row.new d.made) }
    ensures level { IfOk result (λ d. level_of d.bound ≡ Bind) }
    ensures rule { IfOk result (λ d.
        IfSome d.bound (IsOwnRule (L.functions lang.now) table.now operation.now.binder.now)) }
    ensures refused { OnErr result (journal_of row.new ≡ journal_of row.old) }
    ensures idles { idles_of row.new ≡ idles_of row.old }
    ensures tag { tag_of row.new ≡ tag_of row.old }
    ensures row_table { table_of row.new ≡ table_of row.old }
    ensures table { table_in mind.new ≡ table_in mind.old }
    ensures binds { IfOk result (λ d. BindsAt (level_of d.bound) (binds_in mind.old) (binds_in mind.new)) }
    ensures may { OnErr result (MayHaveBound mind.old mind.new) }
{
    let class = row.state().class();
    let bound = mind.bind(
        rt,
        alloc,
        lang,
        table,
        operation.binder,
        operation.operands,
        Some(class),
    )?;
    let after = agree(
        &bound.rule,
        &bound.adopted,
        table,
        operation.operands,
        class,
    );
    let made = make(alloc, &bound.rule, after, operation, row)?;
    Ok(Done {
        made,
        bound: Some(bound),
    })
}

/// Makes the operation by a known rule that passes on the object as it stands; where none passes, it is bound. Where
/// memory is refused, members and journal stay.
pub(crate) fn choose_and_make<L: Language, R: Wait>(
    rt: &R,
    alloc: Global,
    lang: &L,
    mind: &mut Mind,
    known: &mut KnownRules,
    cache: &Cache<Rule>,
    table: &ClassTable,
    has_others: bool,
    first: Choice,
    operation: &Operation<'_>,
    row: &mut ObjectRow<'_>,
) -> Result<Done, AllocError>
    requires known { table_in mind.old ≡ table.now }
    requires few_binds { binds_in mind.old < 2 ^ 60 }
    requires few { HaveFewParameters (L.functions lang.now) }
    requires setting { setting_of known.old
        ≡ setting cache.now operation.now.binder.now (L.functions lang.now) table.now }
    requires first { IsChosen (rules_in known.old) operation.now.operands.now first.class first.rule }
    requires own { table_of row.old ≡ table.now }
    requires functions { (tag_of row.old).functions ≡ length (L.functions lang.now) }
    requires number { slice_get (tag_of row.old).binders.now operation.now.head.binder ≡ Some operation.now.binder.now }
    requires proper { AreProperBy (tag_of row.old) operation.now.operands.now }
    ensures made { IfOk result (λ d. Makes operation.now row.old row.new d.made) }
    ensures chosen { IfOk result (λ d.
        IsChosenFor (level_of d.bound) (rules_in known.new) operation.now.operands.now (mark_of row.old)) }
    ensures among { ComesToKnow has_others (rules_in known.old) (rules_in known.new) }
    ensures published { published_in known.new ≡ published_in known.old }
    ensures rule { IfOk result (λ d.
        IfSome d.bound (IsOwnRule (L.functions lang.now) table.now operation.now.binder.now)) }
    ensures refused { OnErr result (journal_of row.new ≡ journal_of row.old) }
    ensures idles { idles_of row.new ≡ idles_of row.old }
    ensures tag { tag_of row.new ≡ tag_of row.old }
    ensures row_table { table_of row.new ≡ table_of row.old }
    ensures table { table_in mind.new ≡ table_in mind.old }
    ensures setting { setting_of known.new ≡ setting_of known.old }
    ensures binds { IfOk result (λ d. BindsAt (level_of d.bound) (binds_in mind.old) (binds_in mind.new)) }
    ensures may { OnErr result (MayHaveBound mind.old mind.new) }
{
    let class = row.state().class().number();
    let chosen = choose(
        known,
        cache,
        operation.binder,
        lang.funs(),
        table,
        has_others,
        operation.operands,
        class,
        first,
    );
    match chosen {
        Some(index) => {
            let made = make_known(alloc, known, cache, table, index, operation, row)?;
            Ok(Done { made, bound: None })
        }
        None => bind_and_make(rt, alloc, lang, mind, table, operation, row),
    }
}
