//! A binder's rules and the calls that a pass makes on them.
ghost use Rattle.std.specs.Prelude.{◌≡◌, ◌≢◌, ◌+◌, ◌^◌, ◌<◌, ◌≤◌, ◌↔◌, All, Contains, IsTrue, IfOk, IfErr, IfSome, IfNone, [], Ok};
ghost use Rattle.rule_cells.specs.Cells.{IsKnownOf, index_of, rule_of};
ghost use Rattle.binder_cache.specs.Known.{KnownRule, Knows, BringsFirst};
ghost use Rattle.binder_cache.specs.Pass.{known_of, published_of, foreign_of, looked_of, IsPassOf, Publishes, Learns, SameCounts, ComesBack, IfAt, IfPast};

use crate::pass::{CachePass, FOREIGN, OWN};
use crate::probe::{Adopt, Probe};
use crate::rows::Publication;
use rule_cells::{Cells, Known};
use std::alloc::{AllocError, Global};
use std::sync::Wait;
use std::sync::atomic::{AtomicU64, Ordering};

/// The rules of a binder, which all passes share.
#[derive(Drop)]
pub struct Cache<R> {
    cells: Cells<Publication<R>>,
    passes: AtomicU64,
}

/// What `publish` did: the rule has an index, or the pass has published all that it may.
#[derive(Drop)]
pub enum Published<R, A> {
    At(u64),
    Past(R, A),
}

impl<R: Drop> Cache<R> {
    /// A cache with no rule, or want of memory.
    pub fn new(alloc: Global) -> Result<Cache<R>, AllocError> {
        Ok(Cache {
            cells: Cells::new(alloc)?,
            passes: AtomicU64::new(0),
        })
    }

    /// Publishes a rule. The pass then knows it at the index that comes back, with this note and before all others.
    /// Rule and note come back as `Past` exactly where the pass has published 64 here, and as an error for want of
    /// memory. The pass is then as before.
    pub fn publish<A>(
        &self,
        rt: &impl Wait,
        pass: &mut CachePass<R, A>,
        rule: R,
        note: A,
    ) -> Result<Published<R, A>, (R, A, AllocError)>
        requires { IsPassOf self.now pass.old }
        ensures pass { IsPassOf self.now pass.new }
        ensures full { published_of pass.old ≡ 64 → result ≡ Ok (Published.Past rule note) }
        ensures at { IfOk result (λ published.
            IfAt published (Publishes pass.old pass.new rule note)) }
        ensures known { IfOk result (λ published. IfAt published (Knows (known_of pass.new))) }
        ensures past { IfOk result (λ published.
            IfPast published (λ r n. ComesBack pass.old pass.new rule note r n × (published_of pass.old ≡ 64))) }
        ensures err { IfErr result (λ refused. ComesBack pass.old pass.new rule note refused.0 refused.1) }
    {
        if pass.published == OWN {
            return Ok(Published::Past(rule, note));
        }
        let publication = Publication {
            rule,
            pass: pass.number,
            number: pass.published,
        };
        match self.cells.publish(rt, publication) {
            Ok(known) => {
                let index = known.index();
                pass.rules.tell_apart(&self.cells, &known);
                pass.add_own(known, note);
                Ok(Published::At(index))
            }
            Err((publication, error)) => {
                let Publication {
                    rule,
                    pass: _,
                    number: _,
                } = publication;
                Err((rule, note, error))
            }
        }
    }
}

impl<R> Cache<R> {
    /// A pass that knows no rule, with the room for all that it will know, or want of memory.
    pub fn pass<A>(&self, alloc: Global) -> Result<CachePass<R, A>, AllocError>
        ensures pass { IfOk result (λ pass. IsPassOf self.now pass) }
        ensures known { IfOk result (λ pass. known_of pass ≡ []) }
        ensures published { IfOk result (λ pass. published_of pass ≡ 0) }
        ensures foreign { IfOk result (λ pass. foreign_of pass ≡ 0) }
        ensures looked { IfOk result (λ pass. looked_of pass ≡ 0) }
    {
        CachePass::new(alloc, self.passes.fetch_add(1, Ordering::SeqCst))
    }

    /// The index of the most recent known rule that passes, which comes before all others.
    /// `None` exactly where no known rule passes.
    pub fn find<A, P: Probe<R>>(&self, pass: &mut CachePass<R, A>, probe: &P) -> Option<u64>
        requires { IsPassOf self.now pass.old }
        ensures pass { IsPassOf self.now pass.new }
        ensures none { IfNone result
            (All (λ known. ¬ P.accepts probe.now known.rule) (known_of pass.old)) }
        ensures same { IfNone result (known_of pass.new ≡ known_of pass.old) }
        ensures found { IfSome result
            (BringsFirst (P.accepts probe.now) (known_of pass.old) (known_of pass.new)) }
        ensures known { IfSome result (Knows (known_of pass.new)) }
        ensures counts { SameCounts pass.old pass.new }
    {
        pass.rules.find(&self.cells, probe)
    }

    /// The rule at a known index.
    pub fn show<'a, A>(&'a self, pass: &CachePass<R, A>, index: u64) -> &'a R
        requires pass { IsPassOf self.now pass.now }
        requires known { Knows (known_of pass.now) index }
        ensures { (known : KnownRule R A) → Contains (known_of pass.now) known
            → known.index ≡ index → result.now ≡ known.rule }
    {
        &self.cells.show(&pass.rules.row(index).known).rule
    }

    /// The note of the rule at a known index.
    pub fn note<'a, A>(&self, pass: &'a CachePass<R, A>, index: u64) -> &'a A
        requires pass { IsPassOf self.now pass.now }
        requires known { Knows (known_of pass.now) index }
        ensures { (known : KnownRule R A) → Contains (known_of pass.now) known
            → known.index ≡ index → result.now ≡ known.note }
    {
        &pass.rules.row(index).note
    }

    /// Learns the rules of other passes that `adopt` takes, each before all others, while there is room.
    /// It looks at the indexes from where its last call ended, up to the first that the cells do not show.
    pub fn learn<A, P: Adopt<R, A>>(&self, pass: &mut CachePass<R, A>, adopt: &mut P)
        requires { IsPassOf self.now pass.old }
        ensures pass { IsPassOf self.now pass.new }
        ensures learns { Learns (P.admits adopt.old) pass.old pass.new }
        ensures same { (rule : R) (note : A) →
            P.admits adopt.new rule note ↔ P.admits adopt.old rule note }
    {
        while pass.foreign < FOREIGN && self.learn_next(pass, adopt) {}
    }

    // Looks at one index, and says whether the cells show it.
    fn learn_next<A, P: Adopt<R, A>>(&self, pass: &mut CachePass<R, A>, adopt: &mut P) -> bool
        requires pass { IsPassOf self.now pass.old }
        requires room { foreign_of pass.old < 64 }
        ensures pass { IsPassOf self.now pass.new }
        ensures learns { Learns (P.admits adopt.old) pass.old pass.new }
        ensures same { (rule : R) (note : A) →
            P.admits adopt.new rule note ↔ P.admits adopt.old rule note }
        ensures on { IsTrue result → looked_of pass.old < looked_of pass.new }
        ensures bounded { looked_of pass.new < 2 ^ 64 }
    {
        if pass.next_look == u64::MAX {
            return false;
        }
        let Some(known) = self.cells.look(pass.next_look) else {
            return false;
        };
        pass.next_look += 1;
        let publication = self.cells.show(&known);
        if publication.pass == pass.number {
            return true;
        }
        if let Some(note) = adopt.adopt(&publication.rule) {
            pass.rules.tell_apart(&self.cells, &known);
            pass.add_foreign(known, note);
        }
        true
    }
}
