//! What one pass knows of a cache.
ghost use Rattle.std.specs.Prelude.{◌≡◌, ◌≢◌, ◌+◌, ◌^◌, ◌<◌, ◌≤◌, All, AllPairs, Contains, IfSome, IfNone, IfOk, Any, [], length, vec_len, option_map, slice_get};
ghost use Rattle.rule_cells.specs.Cells.{index_of, rule_of};
ghost use Rattle.binder_cache.specs.Known.{KnownRule, Knows};
ghost use Rattle.binder_cache.specs.Row.{HasOwnBelow, HasOthersBelow};

use crate::rows::{KnownRules, Publication};
use rule_cells::Known;
use std::alloc::{AllocError, Global};

/// The rules that a pass can publish in one cache.
pub const OWN: u32 = 64;

/// The rules of other passes that a pass can know in one cache.
pub const FOREIGN: u32 = 64;

/// The rules that a pass knows of one cache, each with a note, in an order with the most recent first.
#[derive(Drop)]
pub struct CachePass<R, A> {
    pub(crate) rules: KnownRules<R, A>,
    // no other pass of the cache has this number
    pub(crate) number: u64,
    pub(crate) published: u32,
    pub(crate) foreign: u32,
    // the index that `learn` looks at next
    pub(crate) next_look: u64,
    ghost counted: { published + foreign ≡ vec_len rules.rows },
    ghost few: { (published ≤ 64) × (foreign ≤ 64) },
    ghost own: { HasOwnBelow rules.rows.items number published },
    ghost seen: { HasOthersBelow rules.rows.items number next_look },
}

impl<R, A> CachePass<R, A> {
    ghost use Rattle.binder_cache.specs.Pass.{known_of, published_of, foreign_of, looked_of, Publishes};
    ghost use Rattle.binder_cache.specs.Known.{AddsFirst};
    ghost use Rattle.binder_cache.specs.Row.{AddsRow};

    // A pass that knows nothing.
    pub(crate) fn new(alloc: Global, number: u64) -> Result<CachePass<R, A>, AllocError>
        ensures known { IfOk result (λ pass. known_of pass ≡ []) }
        ensures rows { IfOk result (λ pass. pass.rules.rows.items ≡ []) }
        ensures published { IfOk result (λ pass. published_of pass ≡ 0) }
        ensures foreign { IfOk result (λ pass. foreign_of pass ≡ 0) }
        ensures looked { IfOk result (λ pass. looked_of pass ≡ 0) }
    {
        Ok(CachePass {
            rules: KnownRules::new(alloc)?,
            number,
            published: 0,
            foreign: 0,
            next_look: 0,
        })
    }

    // Adds a rule that this pass published.
    pub(crate) fn add_own(&mut self, known: Known<Publication<R>>, note: A)
        requires room { published_of self.old < 64 }
        requires mine { (rule_of known).pass ≡ self.old.number }
        requires numbered { (rule_of known).number ≡ self.old.published }
        requires apart { All (λ row. index_of row.known ≢ index_of known) self.old.rules.rows.items }
        ensures publishes { Publishes self.old self.new (rule_of known).rule note (index_of known) }
        ensures rows { AddsRow self.old.rules.rows.items self.new.rules.rows.items known }
    {
        self.rules.add(known, note);
        self.published += 1;
    }

    // Adds a rule of another pass.
    pub(crate) fn add_foreign(&mut self, known: Known<Publication<R>>, note: A)
        requires room { foreign_of self.old < 64 }
        requires other { (rule_of known).pass ≢ self.old.number }
        requires seen { index_of known < looked_of self.old }
        requires apart { All (λ row. index_of row.known ≢ index_of known) self.old.rules.rows.items }
        ensures adds { AddsFirst (known_of self.old) (known_of self.new) (index_of known) (rule_of known).rule note }
        ensures foreign { foreign_of self.new ≡ foreign_of self.old + 1 }
        ensures published { published_of self.new ≡ published_of self.old }
        ensures looked { looked_of self.new ≡ looked_of self.old }
        ensures rows { AddsRow self.old.rules.rows.items self.new.rules.rows.items known }
    {
        self.rules.add(known, note);
        self.foreign += 1;
    }

    /// The word that names a known rule at a site.
    /// It is not 0, no other known rule has it, and the rule keeps it.
    pub fn word(&self, index: u64) -> u64
        requires { Knows (known_of self.now) index }
        ensures word { (known : KnownRule R A) → Contains (known_of self.now) known
            → known.index ≡ index → result ≡ known.word }
        ensures small { index < 2 ^ 63 → result ≡ index + 1 }
        ensures named { result ≢ 0 }
        ensures apart { AllPairs (λ one other. one.word ≢ other.word) (known_of self.now) }
    {
        self.rules.row(index).word
    }

    /// The index of the known rule with this word. `None` exactly where no known rule has it.
    pub fn named(&self, word: u64) -> Option<u64>
        ensures none { IfNone result (All (λ known. known.word ≢ word) (known_of self.now)) }
        ensures some { IfSome result (λ index.
            Any (λ known. (known.word ≡ word) × (known.index ≡ index)) (known_of self.now)) }
        ensures known { IfSome result (Knows (known_of self.now)) }
    {
        self.rules.named(word)
    }

    /// The index of the known rule at a place of the order, from 0.
    /// `None` exactly where the pass knows no more rules than that.
    pub fn at(&self, place: u32) -> Option<u64>
        ensures at { result ≡ option_map (λ known. known.index) (slice_get (known_of self.now) place) }
        ensures known { IfSome result (Knows (known_of self.now)) }
        ensures once { AllPairs (λ one other. one.index ≢ other.index) (known_of self.now) }
    {
        self.rules.at(place)
    }

    /// How many rules the pass has published here.
    pub fn published(&self) -> u32
        ensures count { result ≡ published_of self.now }
        ensures few { result ≤ 64 }
    {
        self.published
    }

    /// How many rules of other passes the pass knows.
    pub fn foreign(&self) -> u32
        ensures count { result ≡ foreign_of self.now }
        ensures few { result ≤ 64 }
        ensures all { published_of self.now + result ≡ length (known_of self.now) }
    {
        self.foreign
    }
}
