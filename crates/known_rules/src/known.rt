//! The rules that a pass knows of one binder.
ghost use Rattle.known_rules.specs.Adoptions.{IsOfCache, KnowsAdopted, setting_in};
ghost use Rattle.known_rules.specs.Props.{adopted_prop, own_prop};

use crate::adopting::{Adopting, Passing};
use crate::bound::BoundRule;
use crate::guard::agree;
use crate::plain::plain_outcome;
use crate::publishing::{PublishAnswer, answer_of, let_go};
use crate::snapshots::Snapshots;
use binder_cache::{Cache, CachePass};
use call_site::{Choice, SitePass, Sites};
use dyn_value::{Outcome, Value};
use expando_class::{ClassRef, ClassTable};
use rule::{Adopted, Rule};
use standard_binders::{Binder, FunTable};
use std::alloc::{AllocError, Global};
use std::sync::Wait;

/// The rules that a pass knows of one binder, the most recent first.
///
/// Its type keeps that each is a rule of this binder whose claim holds, in the table and for the functions that it was
/// made for, with the classes of its note. A pass that knows them needs no further look at the claim.
#[derive(Drop)]
pub struct KnownRules {
    rules: CachePass<Rule, Adopted>,
    snapshots: Snapshots,
    pub ghost own: { IsOfCache (setting_in snapshots) rules } by { own_prop (setting_in snapshots) rules },
    pub ghost adopted: { KnowsAdopted (setting_in snapshots) rules } by { adopted_prop (setting_in snapshots) rules },
}

/// A known rule that fits an object of a class, with the class after that it names.
#[derive(Drop)]
pub struct Fitting<'a> {
    /// The rule.
    pub rule: &'a Rule,
    /// The class to which it moves the object.
    pub after: Option<ClassRef>,
}

impl KnownRules {
    ghost use Rattle.std.specs.Prelude.{◌≡◌, ◌≢◌, ◌<◌, ℕ, [], All, AllPairs, Contains, IfNone, IfOk, IfSome, Some, true};
    ghost use Rattle.binder_cache.specs.Known.{BringsFirst, KnownRule, Knows};
    ghost use Rattle.call_site.specs.Chosen.{Chooses, TriesInOrder};
    ghost use Rattle.call_site.specs.Passes.{made_of, ring_of, site_count, target_of, IsPassOf, IsSamePass};
    ghost use Rattle.expando_class.specs.Class.{IsClassOf, number_of};
    ghost use Rattle.object_model.specs.Plain.{plain_step};
    ghost use Rattle.rule.specs.declared.claimed.Adopted.{Adopted as Note};
    ghost use Rattle.rule.specs.declared.rule.Rule.{Rule as Shown};
    ghost use Rattle.rule.specs.Rules.{binder_of};
    ghost use Rattle.rule_model.specs.Soundness.{Suit, looks_at_none};
    ghost use Rattle.known_rules.specs.declared.publishing.PublishAnswer.TheVariants.{Past};
    ghost use Rattle.known_rules.specs.Guarding.{FitsClass, IsAdoptedIn, Passes};
    ghost use Rattle.known_rules.specs.Adoptions.{setting};
    ghost use Rattle.known_rules.specs.Knowledge.{chosen_by, Grows, IsChosen, IsPublished, published_in, rules_in, setting_of};

    /// No rule is known yet. The one error is want of memory.
    pub fn new(
        alloc: Global,
        cache: &Cache<Rule>,
        binder: &Binder,
        funs: &FunTable,
        table: &ClassTable,
    ) -> Result<KnownRules, AllocError>
        ensures rules { IfOk result (λ k. rules_in k ≡ []) }
        ensures published { IfOk result (λ k. published_in k ≡ 0) }
        ensures setting { IfOk result (λ k.
            setting_of k ≡ setting cache.now binder.now funs.now.params table.now) }
    {
        let rules = cache.pass(alloc)?;
        Ok(KnownRules {
            rules,
            snapshots: Snapshots::of(cache, binder, funs, table),
        })
    }

    /// The index of the most recent known rule that passes on these operands and a class of this number, which then
    /// comes before all others. `None` exactly where no known rule passes.
    pub fn find(&mut self, cache: &Cache<Rule>, operands: &[Value], class: u128) -> Option<u64>
        requires { (setting_of self.old).cache ≡ cache.now }
        ensures none { IfNone result (All (λ k. ¬ Passes operands.now class k.rule) (rules_in self.old)) }
        ensures same { IfNone result (rules_in self.new ≡ rules_in self.old) }
        ensures found { IfSome result (
            BringsFirst (Passes operands.now class) (rules_in self.old) (rules_in self.new)) }
        ensures chosen { IsChosen (rules_in self.new) operands.now class result }
        ensures published { published_in self.new ≡ published_in self.old }
        ensures setting { setting_of self.new ≡ setting_of self.old }
    {
        cache.find(&mut self.rules, &Passing { operands, class })
    }

    /// Which known rule passes on these operands and a class of this number, as a site tries them: the one that its target
    /// names, else the first that its ring names, from the word entered last on, else the most recent, which then comes
    /// before all others. None is chosen exactly where no known rule passes.
    ///
    /// No word of the site changes, and the call waits for nobody. While only one pass of the sites was made, target and
    /// ring are those that it settled.
    pub fn select(
        &mut self,
        cache: &Cache<Rule>,
        sites: &Sites,
        pass: &mut SitePass,
        site: u32,
        operands: &[Value],
        class: u128,
    ) -> Choice
        requires cache { (setting_of self.old).cache ≡ cache.now }
        requires own { IsPassOf sites.now pass.old }
        requires site { site < site_count sites.now }
        ensures own { IsSamePass pass.old pass.new }
        ensures selects { Chooses (Passes operands.now class) (rules_in self.old) (rules_in self.new) result.level result.rule }
        ensures chosen { IsChosen (rules_in self.new) operands.now class (chosen_by result) }
        ensures tries { made_of pass.old ≡ 1 → TriesInOrder (Passes operands.now class) (target_of pass.old site)
            (ring_of pass.old site) (rules_in self.old) result.level result.rule }
        ensures published { published_in self.new ≡ published_in self.old }
        ensures setting { setting_of self.new ≡ setting_of self.old }
    {
        let probe = Passing { operands, class };
        sites.select(cache, pass, &mut self.rules, site, &probe)
    }

    /// The word that names the known rule of an index at sites. It is not 0, and no two known rules have one word.
    pub fn word(&self, index: u64) -> u64
        requires { Knows (rules_in self.now) index }
        ensures named { result ≢ 0 }
        ensures apart { AllPairs (λ one other. one.word ≢ other.word) (rules_in self.now) }
        ensures word { (k : KnownRule Shown Note) → Contains (rules_in self.now) k → k.index ≡ index → result ≡ k.word }
    {
        self.rules.word(index)
    }

    /// Adopts rules of other passes, each before all others, while there is room: those of this binder whose claim
    /// holds, by what the table shows now. What was known stays.
    pub fn learn(
        &mut self,
        cache: &Cache<Rule>,
        binder: &Binder,
        funs: &FunTable,
        table: &ClassTable,
    )
        requires { setting_of self.old ≡ setting cache.now binder.now funs.now.params table.now }
        ensures grows { Grows (rules_in self.old) (rules_in self.new) }
        ensures published { published_in self.new ≡ published_in self.old }
        ensures setting { setting_of self.new ≡ setting_of self.old }
    {
        let mut adopting = Adopting {
            binder,
            funs,
            table,
        };
        cache.learn(&mut self.rules, &mut adopting);
    }

    /// Publishes a rule that was bound, so that other passes can learn it; it is then known before all others. It is
    /// dropped exactly where the pass has published 64 here, or where memory is refused; what was known stays.
    pub fn publish<R: Wait>(
        &mut self,
        rt: &R,
        cache: &Cache<Rule>,
        bound: BoundRule,
    ) -> PublishAnswer
        requires cache { (setting_of self.old).cache ≡ cache.now }
        requires adopted { let s = setting_of self.old in
            IsAdoptedIn s.binder s.functions s.table bound.rule bound.adopted }
        ensures published { IsPublished self.old self.new bound result }
        ensures past { published_in self.old ≡ 64 → result ≡ Past }
        ensures setting { setting_of self.new ≡ setting_of self.old }
    {
        let BoundRule { rule, adopted } = bound;
        let published = cache.publish(rt, &mut self.rules, rule, adopted);
        let answer = answer_of(&published);
        let_go(published);
        answer
    }

    /// The known rule of an index.
    pub fn show<'a>(&self, cache: &'a Cache<Rule>, index: u64) -> &'a Rule
        requires cache { (setting_of self.now).cache ≡ cache.now }
        requires known { Knows (rules_in self.now) index }
        ensures rule { (k : KnownRule Shown Note) → Contains (rules_in self.now) k
            → k.index ≡ index → result.now ≡ k.rule }
        ensures binder { binder_of result.now ≡ (setting_of self.now).binder }
    {
        cache.show(&self.rules, index)
    }

    /// The classes that the claim of the known rule of an index names.
    pub fn note(&self, cache: &Cache<Rule>, index: u64) -> &Adopted
        requires cache { (setting_of self.now).cache ≡ cache.now }
        requires known { Knows (rules_in self.now) index }
        ensures note { (k : KnownRule Shown Note) → Contains (rules_in self.now) k
            → k.index ≡ index → result.now ≡ k.note }
        ensures adopted { let s = setting_of self.now in
            (k : KnownRule Shown Note) → Contains (rules_in self.now) k → k.index ≡ index
            → IsAdoptedIn s.binder s.functions s.table k.rule result.now }
    {
        cache.note(&self.rules, index)
    }

    /// The known rule of an index, which passes on these operands and the number of this class, with its class after.
    /// It fits each state of the class.
    pub fn fitting<'a>(
        &self,
        cache: &'a Cache<Rule>,
        index: u64,
        table: &ClassTable,
        operands: &[Value],
        class: &ClassRef,
    ) -> Fitting<'a>
        requires cache { (setting_of self.now).cache ≡ cache.now }
        requires table { (setting_of self.now).table ≡ table.now }
        requires own { IsClassOf table.now class.now }
        requires chosen { IsChosen (rules_in self.now) operands.now (number_of class.now) (Some index) }
        ensures binder { binder_of result.rule.now ≡ (setting_of self.now).binder }
        ensures fits { FitsClass result.rule.now operands.now table.now class.now result.after }
    {
        let rule = self.show(cache, index);
        let after = agree(rule, self.note(cache, index), table, operands, class);
        Fitting { rule, after }
    }

    /// The outcome of an operation on these operands that looks at no object, by the known rule of an index, which
    /// passes on them. The one error is want of memory.
    pub fn plain_outcome(
        &self,
        alloc: Global,
        cache: &Cache<Rule>,
        index: u64,
        operands: &[Value],
    ) -> Result<Outcome, AllocError>
        requires cache { (setting_of self.now).cache ≡ cache.now }
        requires chosen { (class : ℕ) × IsChosen (rules_in self.now) operands.now class (Some index) }
        requires none { looks_at_none (setting_of self.now).binder operands.now ≡ true }
        requires suit { Suit (setting_of self.now).binder operands.now }
        ensures { let s = setting_of self.now in
            IfOk result (λ o. o ≡ plain_step s.functions s.binder operands.now) }
    {
        // Its claim holds.
        self.note(cache, index);
        plain_outcome(alloc, self.show(cache, index), operands)
    }
}
