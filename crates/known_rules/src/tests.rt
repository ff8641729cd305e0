//! That one pass finds what another one bound, and adopts it only where its table shows the classes; that a known rule
//! answers an operation that looks at no object; and that a site tries what it was settled with. Expected answers were
//! worked out by hand.
ghost use Rattle.std.specs.Prelude.{◌≡◌, [], IfOk, None, Some};
ghost use Rattle.dyn_value.specs.declared.value.Kind.TheVariants.{Text as TextKind};
ghost use Rattle.dyn_value.specs.Kinds.{kind_of};
ghost use Rattle.expando_class.specs.Class.{IsClassOf};
ghost use Rattle.expando_class.specs.Pass.{IsPassOf};
ghost use Rattle.meta_object.specs.Contexts.{KeepsContext};
ghost use Rattle.meta_object.specs.Operands.{AreMetasOf};
ghost use Rattle.standard_binders.specs.declared.binder.Binder.TheVariants.{SetIndex};
ghost use Rattle.known_rules.specs.Adoptions.{setting};
ghost use Rattle.known_rules.specs.Guarding.{IsAdoptedIn};
ghost use Rattle.known_rules.specs.Sums.{addition, two_and_three};
ghost use Rattle.known_rules.specs.Writes.{write};
ghost use Rattle.known_rules.specs.Knowledge.{setting_of};

use crate::{BoundRule, KnownRules};
use binder_cache::Cache;
use call_site::{Level, Sites};
use dyn_value::{BinOp, DynText, Outcome, Value};
use expando_class::{ClassRef, ClassTable};
use fallback::Script;
use meta_object::{BindContext, MetaObject, operations_are_bound_by_their_metaobjects};
use rule::{Binds, Rule, bind};
use sqlite_items::Items;
use standard_binders::{Binder, FunTable};
use std::alloc::{AllocError, Global};
use std::sync::Wait;
use std::test::Fail;

fn no_functions(alloc: Global) -> FunTable
    ensures { result.params ≡ [] }
{
    FunTable {
        params: Items::new(alloc),
    }
}

/// The key of the writes.
fn key(alloc: Global) -> Result<DynText, Fail> {
    Ok(DynText::from_str(alloc, "x")?.ok_or("too long")?)
}

/// The metaobjects of a write of 7 at a key of object 0, which is of this class.
fn metas_of_write(
    alloc: Global,
    key: &Value,
    class: &ClassRef,
) -> Result<[MetaObject; 3], AllocError>
    ensures { IfOk result (λ metas. AreMetasOf (write key.now) (Some class.now) metas) }
{
    let first = MetaObject::of(alloc, 0, &Value::Obj(0), Some(class))?;
    let second = MetaObject::of(alloc, 1, key, None)?;
    let third = MetaObject::of(alloc, 2, &Value::Int(7), None)?;
    Ok([first, second, third])
}

/// The rule of a write of 7 at a text as key, on an object of this class.
fn bind_write(
    rt: &impl Wait,
    alloc: Global,
    language: &Script,
    cx: &mut BindContext,
    binder: &Binder,
    key: &Value,
    class: &ClassRef,
) -> Result<BoundRule, AllocError>
    requires functions { language.now.functions.params ≡ [] }
    requires pass { IsPassOf cx.old.table.now cx.old.pass.now }
    requires binder { binder.now ≡ SetIndex }
    requires key { kind_of key.now ≡ TextKind }
    requires class { IsClassOf cx.old.table.now class.now }
    ensures context { KeepsContext cx.old cx.new }
    ensures adopted { IfOk result (λ b. IsAdoptedIn SetIndex [] cx.old.table.now b.rule b.adopted) }
{
    let metas = metas_of_write(alloc, key, class)?;
    operations_are_bound_by_their_metaobjects();
    let mut binds = Binds { count: 0 };
    let rule = bind(alloc, rt, &mut binds, language, cx, binder, &metas)?;
    Ok(BoundRule::new(rule, cx.table, cx.pass, Some(class)))
}

/// The rule of a write of 7 at the key, on an object of no members. It moves the object to the class with that name
/// alone.
fn bound_write(rt: &impl Wait, alloc: Global, table: &ClassTable) -> Result<BoundRule, Fail>
    ensures { IfOk result (λ b. IsAdoptedIn SetIndex [] table.now b.rule b.adopted) }
{
    let key = Value::Text(key(alloc)?);
    let language = Script::make(no_functions(alloc));
    let mut pass = table.pass(alloc)?;
    let mut cx = BindContext {
        table,
        pass: &mut pass,
    };
    let class = table.root();
    let bound = bind_write(
        rt,
        alloc,
        &language,
        &mut cx,
        &Binder::SetIndex,
        &key,
        &class,
    )?;
    Ok(bound)
}

/// What the pass learns and then finds for the write on an object of no members: the number of the class after.
fn learned(
    known: &mut KnownRules,
    cache: &Cache<Rule>,
    binder: &Binder,
    funs: &FunTable,
    table: &ClassTable,
    operands: &[Value],
) -> Option<u128>
    requires { setting_of known.old ≡ setting cache.now binder.now funs.now.params table.now }
    ensures { setting_of known.new ≡ setting_of known.old }
{
    known.learn(cache, binder, funs, table);
    found(known, cache, table, operands)
}

/// What the pass finds for the write on an object of no members: the number of the class after.
fn found(
    known: &mut KnownRules,
    cache: &Cache<Rule>,
    table: &ClassTable,
    operands: &[Value],
) -> Option<u128>
    requires cache { (setting_of known.old).cache ≡ cache.now }
    requires table { (setting_of known.old).table ≡ table.now }
    ensures { setting_of known.new ≡ setting_of known.old }
{
    let class = table.root();
    let index = known.find(cache, operands, class.number())?;
    let fitting = known.fitting(cache, index, table, operands, &class);
    Some(fitting.after?.number())
}

/// One pass publishes the rule, and another one learns it: what the first then finds, and the other one before and
/// after.
fn told(
    rt: &impl Wait,
    alloc: Global,
    cache: &Cache<Rule>,
    binder: &Binder,
    funs: &FunTable,
    table: &ClassTable,
    operands: &[Value],
    bound: BoundRule,
) -> Result<[Option<u128>; 3], AllocError>
    requires { IsAdoptedIn binder.now funs.now.params table.now bound.rule bound.adopted }
{
    let mut first = KnownRules::new(alloc, cache, binder, funs, table)?;
    let mut second = KnownRules::new(alloc, cache, binder, funs, table)?;
    first.publish(rt, cache, bound);
    let own = found(&mut first, cache, table, operands);
    let before = found(&mut second, cache, table, operands);
    let after = learned(&mut second, cache, binder, funs, table, operands);
    Ok([own, before, after])
}

/// What a pass over a table that shows the root alone learns.
fn told_by_the_root(
    alloc: Global,
    cache: &Cache<Rule>,
    binder: &Binder,
    funs: &FunTable,
    operands: &[Value],
) -> Result<Option<u128>, AllocError> {
    let table = ClassTable::new(alloc)?;
    let mut known = KnownRules::new(alloc, cache, binder, funs, &table)?;
    Ok(learned(&mut known, cache, binder, funs, &table, operands))
}

/// One pass binds and publishes, and another one learns and finds it. Where the table of a pass does not show the class
/// after, the pass does not adopt the rule.
#[test]
fn a_rule_of_another_pass(rt: HostRuntime) -> Result<(), Fail> {
    let alloc = rt.alloc();
    let operands = [Value::Obj(0), Value::Text(key(alloc)?), Value::Int(7)];
    let binder = Binder::SetIndex;
    let funs = no_functions(alloc);
    let cache: Cache<Rule> = Cache::new(alloc)?;
    let table = ClassTable::new(alloc)?;
    let bound = bound_write(&rt, alloc, &table)?;
    let told = told(&rt, alloc, &cache, &binder, &funs, &table, &operands, bound)?;
    assert!(rt; told == [Some(1), None, Some(1)]);
    assert!(rt; told_by_the_root(alloc, &cache, &binder, &funs, &operands)? == None);
    Ok(())
}

/// The metaobjects of the sum of 2 and 3.
fn metas_of_sum(alloc: Global) -> Result<[MetaObject; 2], AllocError>
    ensures { IfOk result (λ metas. AreMetasOf two_and_three None metas) }
{
    let first = MetaObject::of(alloc, 0, &Value::Int(2), None)?;
    let second = MetaObject::of(alloc, 1, &Value::Int(3), None)?;
    Ok([first, second])
}

/// The rule of the sum of 2 and 3.
fn bind_sum(
    rt: &impl Wait,
    alloc: Global,
    language: &Script,
    cx: &mut BindContext,
    binder: &Binder,
) -> Result<BoundRule, AllocError>
    requires functions { language.now.functions.params ≡ [] }
    requires pass { IsPassOf cx.old.table.now cx.old.pass.now }
    requires binder { binder.now ≡ addition }
    ensures context { KeepsContext cx.old cx.new }
    ensures adopted { IfOk result (λ b. IsAdoptedIn addition [] cx.old.table.now b.rule b.adopted) }
{
    let metas = metas_of_sum(alloc)?;
    operations_are_bound_by_their_metaobjects();
    let mut binds = Binds { count: 0 };
    let rule = bind(alloc, rt, &mut binds, language, cx, binder, &metas)?;
    Ok(BoundRule::new(rule, cx.table, cx.pass, None))
}

/// The rule of the sum of 2 and 3, bound over this table.
fn bound_sum(
    rt: &impl Wait,
    alloc: Global,
    table: &ClassTable,
    binder: &Binder,
) -> Result<BoundRule, AllocError>
    requires { binder.now ≡ addition }
    ensures { IfOk result (λ b. IsAdoptedIn addition [] table.now b.rule b.adopted) }
{
    let language = Script::make(no_functions(alloc));
    let mut pass = table.pass(alloc)?;
    let mut cx = BindContext {
        table,
        pass: &mut pass,
    };
    bind_sum(rt, alloc, &language, &mut cx, binder)
}

/// The number that is an outcome, if it is one.
fn number_in(outcome: &Outcome) -> Option<i64> {
    match outcome {
        Outcome::Value(Value::Int(number)) => Some(*number),
        _ => None,
    }
}

/// The sum of 2 and 3 by a known rule, where one passes. It passes whatever the class of an object is.
fn known_sum(
    alloc: Global,
    known: &mut KnownRules,
    cache: &Cache<Rule>,
    operands: &[Value],
) -> Result<Option<i64>, AllocError>
    requires cache { (setting_of known.old).cache ≡ cache.now }
    requires binder { (setting_of known.old).binder ≡ addition }
    requires operands { operands.now ≡ two_and_three }
    ensures { setting_of known.new ≡ setting_of known.old }
{
    let Some(index) = known.find(cache, operands, 9) else {
        return Ok(None);
    };
    let outcome = known.plain_outcome(alloc, cache, index, operands)?;
    Ok(number_in(&outcome))
}

/// The sum by known rules before a rule of sums is published, and after.
fn sums(
    rt: &impl Wait,
    alloc: Global,
    known: &mut KnownRules,
    cache: &Cache<Rule>,
    operands: &[Value],
    bound: BoundRule,
) -> Result<[Option<i64>; 2], AllocError>
    requires cache { (setting_of known.old).cache ≡ cache.now }
    requires binder { (setting_of known.old).binder ≡ addition }
    requires adopted { let s = setting_of known.old in
        IsAdoptedIn s.binder s.functions s.table bound.rule bound.adopted }
    requires operands { operands.now ≡ two_and_three }
{
    let before = known_sum(alloc, known, cache, operands)?;
    known.publish(rt, cache, bound);
    let after = known_sum(alloc, known, cache, operands)?;
    Ok([before, after])
}

/// A known rule answers what looks at no object.
#[test]
fn a_sum_by_a_known_rule(rt: HostRuntime) -> Result<(), Fail> {
    let alloc = rt.alloc();
    let operands = [Value::Int(2), Value::Int(3)];
    let binder = Binder::BinaryOperation { op: BinOp::Add };
    let funs = no_functions(alloc);
    let cache: Cache<Rule> = Cache::new(alloc)?;
    let table = ClassTable::new(alloc)?;
    let mut known = KnownRules::new(alloc, &cache, &binder, &funs, &table)?;
    let bound = bound_sum(&rt, alloc, &table, &binder)?;
    let sums = sums(&rt, alloc, &mut known, &cache, &operands, bound)?;
    assert!(rt; sums == [None, Some(5)]);
    Ok(())
}

/// Whether a rule that was published is found at a site by the binder, and then, once the site was settled with it, as
/// the site's target.
fn is_selected(
    rt: &impl Wait,
    alloc: Global,
    cache: &Cache<Rule>,
    binder: &Binder,
    funs: &FunTable,
    table: &ClassTable,
    operands: &[Value],
    bound: BoundRule,
) -> Result<bool, AllocError>
    requires { IsAdoptedIn binder.now funs.now.params table.now bound.rule bound.adopted }
{
    let mut known = KnownRules::new(alloc, cache, binder, funs, table)?;
    known.publish(rt, cache, bound);
    let (sites, mut pass) = Sites::new(alloc, 2)?;
    let class = table.root().number();
    let first = known.select(cache, &sites, &mut pass, 1, operands, class);
    let Some(Level::Binder) = first.level else {
        return Ok(false);
    };
    sites.settle(&mut pass, 1, known.word(first.rule), Level::Binder);
    let second = known.select(cache, &sites, &mut pass, 1, operands, class);
    let other = known.select(cache, &sites, &mut pass, 0, operands, class);
    Ok(matches!(second.level, Some(Level::Target)) && matches!(other.level, Some(Level::Binder)))
}

/// A site tries the rule that it was settled with before all others.
#[test]
fn a_rule_at_a_site(rt: HostRuntime) -> Result<(), Fail> {
    let alloc = rt.alloc();
    let operands = [Value::Obj(0), Value::Text(key(alloc)?), Value::Int(7)];
    let binder = Binder::SetIndex;
    let funs = no_functions(alloc);
    let cache: Cache<Rule> = Cache::new(alloc)?;
    let table = ClassTable::new(alloc)?;
    let bound = bound_write(&rt, alloc, &table)?;
    let is_selected = is_selected(&rt, alloc, &cache, &binder, &funs, &table, &operands, bound)?;
    assert!(rt; is_selected);
    Ok(())
}
