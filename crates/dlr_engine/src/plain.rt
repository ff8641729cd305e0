//! Operations that look at no object.
ghost use Rattle.std.specs.Prelude.{◌≡◌, ◌<◌, ◌^◌, ℕ, true, length, IfOk, IfSome, None, OnErr, Some};
ghost use Rattle.std.specs.List.{AllByRecursion};
ghost use Rattle.dyn_value.specs.Proper.{IsProperIn};
ghost use Rattle.object_model.specs.Steps.{on_object};
ghost use Rattle.rule_model.specs.Soundness.{Suit};
ghost use Rattle.script_program.specs.Names.{has_short_names};
ghost use Rattle.standard_binders.specs.Functions.{HaveFewParameters};
ghost use Rattle.known_rules.specs.Adoptions.{setting};
ghost use Rattle.known_rules.specs.Knowledge.{IsChosen, published_in, rules_in, setting_of};
ghost use Rattle.dlr_engine.specs.declared.answer.Level.TheVariants.{Bind};
ghost use Rattle.dlr_engine.specs.Answers.{IsPlainOutcome};
ghost use Rattle.dlr_engine.specs.Knowing.{level_of, ComesToKnow, IsChosenFor, IsOwnRule};
ghost use Rattle.dlr_engine.specs.Minds.{binds_in, table_in, MayHaveBound};
ghost use Rattle.dlr_engine.specs.Operations.{BindsAt};

use crate::binding::show_proper_content;
use crate::choosing::{Choice, choose};
use crate::mind::Mind;
use binder_cache::Cache;
use dyn_value::{Outcome, Value};
use expando_class::ClassTable;
use known_rules::{BoundRule, KnownRules};
use meta_object::Language;
use rule::Rule;
use standard_binders::Binder;
use std::alloc::{AllocError, Global};
use std::sync::Wait;
use tree_eval::eval_plain;

/// What came of an operation that looks at no object, and the rule that was bound for it, if none was known.
#[derive(Drop)]
pub(crate) struct PlainDone {
    pub(crate) outcome: Outcome,
    pub(crate) bound: Option<BoundRule>,
}

/// The outcome of an operation that looks at no object: by a known rule that passes on the operands, or by one that is
/// bound, where none passes. The one error is want of memory.
pub(crate) fn plain_outcome<L: Language, R: Wait>(
    rt: &R,
    alloc: Global,
    lang: &L,
    mind: &mut Mind,
    known: &mut KnownRules,
    cache: &Cache<Rule>,
    table: &ClassTable,
    has_others: bool,
    binder: &Binder,
    operands: &[Value],
) -> Result<PlainDone, AllocError>
    requires table { table_in mind.old ≡ table.now }
    requires few_binds { binds_in mind.old < 2 ^ 60 }
    requires few { HaveFewParameters (L.functions lang.now) }
    requires setting { setting_of known.old ≡ setting cache.now binder.now (L.functions lang.now) table.now }
    requires none { on_object binder.now operands.now ≡ None }
    requires short_names { has_short_names binder.now ≡ true }
    requires suit { Suit binder.now operands.now }
    requires proper { (objects : ℕ) × AllByRecursion (IsProperIn (length (L.functions lang.now)) objects) operands.now }
    ensures outcome { IfOk result (λ d. IsPlainOutcome (L.functions lang.now) binder.now operands.now d.outcome) }
    ensures chosen { IfOk result (λ d. IsChosenFor (level_of d.bound) (rules_in known.new) operands.now 0) }
    ensures among { ComesToKnow has_others (rules_in known.old) (rules_in known.new) }
    ensures published { published_in known.new ≡ published_in known.old }
    ensures rule { IfOk result (λ d. IfSome d.bound (IsOwnRule (L.functions lang.now) table.now binder.now)) }
    ensures table { table_in mind.new ≡ table_in mind.old }
    ensures setting { setting_of known.new ≡ setting_of known.old }
    ensures binds { IfOk result (λ d. BindsAt (level_of d.bound) (binds_in mind.old) (binds_in mind.new)) }
    ensures refused { OnErr result (MayHaveBound mind.old mind.new) }
{
    let rule = known.find(cache, operands, 0);
    let first = Choice { class: 0, rule };
    match choose(
        known,
        cache,
        binder,
        lang.funs(),
        table,
        has_others,
        operands,
        0,
        first,
    ) {
        Some(index) => {
            let outcome = known_outcome(alloc, lang, known, cache, index, binder, operands)?;
            Ok(PlainDone {
                outcome,
                bound: None,
            })
        }
        None => bound_outcome(rt, alloc, lang, mind, table, binder, operands),
    }
}

/// The outcome by the known rule of an index, which passes on the operands.
fn known_outcome<L: Language>(
    alloc: Global,
    lang: &L,
    known: &KnownRules,
    cache: &Cache<Rule>,
    index: u64,
    binder: &Binder,
    operands: &[Value],
) -> Result<Outcome, AllocError>
    requires cache { (setting_of known.now).cache ≡ cache.now }
    requires binder { (setting_of known.now).binder ≡ binder.now }
    requires functions { (setting_of known.now).functions ≡ L.functions lang.now }
    requires chosen { IsChosen (rules_in known.now) operands.now 0 (Some index) }
    requires none { on_object binder.now operands.now ≡ None }
    requires short_names { has_short_names binder.now ≡ true }
    requires suit { Suit binder.now operands.now }
    requires proper { (objects : ℕ) × AllByRecursion (IsProperIn (length (L.functions lang.now)) objects) operands.now }
    ensures outcome { IfOk result (IsPlainOutcome (L.functions lang.now) binder.now operands.now) }
{
    let outcome = known.plain_outcome(alloc, cache, index, operands)?;
    show_proper_content(&outcome);
    Ok(outcome)
}

/// The outcome by a rule that is bound.
fn bound_outcome<L: Language, R: Wait>(
    rt: &R,
    alloc: Global,
    lang: &L,
    mind: &mut Mind,
    table: &ClassTable,
    binder: &Binder,
    operands: &[Value],
) -> Result<PlainDone, AllocError>
    requires table { table_in mind.old ≡ table.now }
    requires few_binds { binds_in mind.old < 2 ^ 60 }
    requires few { HaveFewParameters (L.functions lang.now) }
    requires none { on_object binder.now operands.now ≡ None }
    requires short_names { has_short_names binder.now ≡ true }
    requires suit { Suit binder.now operands.now }
    requires proper { (objects : ℕ) × AllByRecursion (IsProperIn (length (L.functions lang.now)) objects) operands.now }
    ensures outcome { IfOk result (λ d. IsPlainOutcome (L.functions lang.now) binder.now operands.now d.outcome) }
    ensures level { IfOk result (λ d. level_of d.bound ≡ Bind) }
    ensures rule { IfOk result (λ d. IfSome d.bound (IsOwnRule (L.functions lang.now) table.now binder.now)) }
    ensures table { table_in mind.new ≡ table_in mind.old }
    ensures binds { IfOk result (λ d. BindsAt (level_of d.bound) (binds_in mind.old) (binds_in mind.new)) }
    ensures refused { OnErr result (MayHaveBound mind.old mind.new) }
{
    let bound = mind.bind(rt, alloc, lang, table, binder, operands, None)?;
    let outcome = eval_plain(alloc, bound.rule.body(), operands)?;
    show_proper_content(&outcome);
    Ok(PlainDone {
        outcome,
        bound: Some(bound),
    })
}
