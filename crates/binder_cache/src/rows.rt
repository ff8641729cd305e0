//! The rules that a pass knows, at places that stay, and their order.
ghost use Rattle.std.specs.Prelude.{◌≡◌, ◌≢◌, ◌<◌, ◌≤◌, [], length, nat_eq, ◌^◌, ◌+◌, option_map, slice_get, All, AllPairs, Any, Contains, IfOk, IfSome, IfNone, vec_len, vec_capacity};
ghost use Rattle.std.specs.List.{IsDistinct};
ghost use Rattle.std.proofs.Props.{props};
ghost use Rattle.rule_cells.specs.Cells.{IsKnownOf, index_of, rule_of};
ghost use Rattle.binder_cache.specs.Row.{shown, word_for, HasWords, AreOf, AddsRow, IsFirst};
ghost use Rattle.binder_cache.specs.Known.{KnownRule, BringsFirst, AddsFirst};

use crate::probe::Probe;
use rule_cells::{Cells, Known};
use rule_order::Order;
use std::alloc::{AllocError, Global};

/// A rule in the cells, with the pass that published it and how many that pass had published before.
#[derive(Drop)]
pub struct Publication<R> {
    pub rule: R,
    pub pass: u64,
    pub number: u32,
}

/// A known rule with its note and the word that names it.
#[derive(Drop)]
pub struct Row<R, A> {
    pub known: Known<Publication<R>>,
    pub word: u64,
    pub note: A,
}

/// The rows that a pass has room for.
pub const ROWS: usize = 128;

/// Known rules at places that stay, and the order of these places, most recent first.
#[derive(Drop)]
pub struct KnownRules<R, A> {
    rows: Vec<Row<R, A>>,
    order: Order,
    ghost room: { 128 ≤ vec_capacity rows },
    ghost counted: { length order ≡ vec_len rows },
    ghost once: { IsDistinct nat_eq order } by { Prim.hlevel props },
    ghost placed: { All (λ place. place < vec_len rows) order },
    ghost apart: { AllPairs (λ one other. index_of one.known ≢ index_of other.known) rows.items },
    ghost worded: { HasWords rows.items },
}

impl<R, A> KnownRules<R, A> {
    ghost use Rattle.binder_cache.specs.Rows.{rules_in};

    /// Room for the rules of a pass that knows none.
    pub fn new(alloc: Global) -> Result<KnownRules<R, A>, AllocError>
        ensures rules { IfOk result (λ rules. rules_in rules ≡ []) }
        ensures rows { IfOk result (λ rules. rules.rows.items ≡ []) }
    {
        Ok(KnownRules {
            rows: Vec::with_capacity(alloc, ROWS)?,
            order: Order::new(),
        })
    }

    /// Puts a rule that is not known yet before all others.
    pub fn add(&mut self, known: Known<Publication<R>>, note: A)
        requires room { vec_len self.old.rows < 128 }
        requires apart { All (λ row. index_of row.known ≢ index_of known) self.old.rows.items }
        ensures rules { AddsFirst (rules_in self.old) (rules_in self.new) (index_of known) (rule_of known).rule note }
        ensures rows { AddsRow self.old.rows.items self.new.rows.items known }
    {
        let place = self.rows.len();
        let word = word_at(place, known.index());
        self.rows.push_reserved(Row { known, word, note });
        self.order.push_front(place as u8);
    }

    /// The row of a known rule.
    pub fn row(&self, index: u64) -> &Row<R, A>
        requires { Any (λ known. known.index ≡ index) (rules_in self.now) }
        ensures row { Contains self.now.rows.items result.now }
        ensures rule { (known : KnownRule R A) → Contains (rules_in self.now) known
            → known.index ≡ index → known ≡ shown result.now }
        ensures small { index < 2 ^ 63 → result.now.word ≡ index + 1 }
        ensures named { result.now.word ≢ 0 }
    {
        for row in &self.rows {
            if row.known.index() == index {
                return row;
            }
        }
        unreachable!()
    }

    /// The index of the known rule that a word names.
    pub fn named(&self, word: u64) -> Option<u64>
        ensures none { IfNone result (All (λ known. known.word ≢ word) (rules_in self.now)) }
        ensures some { IfSome result (λ index.
            Any (λ known. (known.word ≡ word) × (known.index ≡ index)) (rules_in self.now)) }
    {
        for row in &self.rows {
            if row.word == word {
                return Some(row.known.index());
            }
        }
        None
    }

    /// The index of the known rule at a place of the order.
    pub fn at(&self, place: u32) -> Option<u64>
        ensures { result ≡ option_map (λ known. known.index) (slice_get (rules_in self.now) place) }
    {
        let mut at = self.order.first();
        for _step in 0..place {
            at = self.order.next(at?);
        }
        Some(self.rows[at? as usize].known.index())
    }

    /// Brings the most recent rule that passes before all others.
    pub fn find<P: Probe<R>>(&mut self, cells: &Cells<Publication<R>>, probe: &P) -> Option<u64>
        requires { AreOf cells.now self.old.rows.items }
        ensures none { IfNone result
            (All (λ known. ¬ P.accepts probe.now known.rule) (rules_in self.old)) }
        ensures same { IfNone result (rules_in self.new ≡ rules_in self.old) }
        ensures found { IfSome result
            (BringsFirst (P.accepts probe.now) (rules_in self.old) (rules_in self.new)) }
        ensures rows { self.new.rows ≡ self.old.rows }
    {
        let place = self.first_passing(cells, probe)?;
        self.order.to_front(place);
        Some(self.rows[place as usize].known.index())
    }

    // The place of the most recent rule that passes.
    fn first_passing<P: Probe<R>>(&self, cells: &Cells<Publication<R>>, probe: &P) -> Option<u8>
        requires { AreOf cells.now self.now.rows.items }
        ensures none { IfNone result
            (All (λ known. ¬ P.accepts probe.now known.rule) (rules_in self.now)) }
        ensures found { IfSome result
            (IsFirst (P.accepts probe.now) self.now.rows.items self.now.order) }
    {
        let known = self.rows.len();
        let mut at = self.order.first();
        for _step in 0..known {
            let place = at?;
            let publication = cells.show(&self.rows[place as usize].known);
            if probe.passes(&publication.rule) {
                return Some(place);
            }
            at = self.order.next(place);
        }
        None
    }

    /// Shows that a publication that no row has stands at an index that no row has.
    /// An index shows one publication, so the test never holds.
    pub fn tell_apart(&self, cells: &Cells<Publication<R>>, known: &Known<Publication<R>>)
        requires rows { AreOf cells.now self.now.rows.items }
        requires known { IsKnownOf cells.now known.now }
        requires other { All (λ row. index_of row.known ≡ index_of known.now
            → rule_of row.known ≢ rule_of known.now) self.now.rows.items }
        ensures { All (λ row. index_of row.known ≢ index_of known.now) self.now.rows.items }
    {
        for row in &self.rows {
            if row.known.index() == known.index() {
                cells.agrees(&row.known, known);
                unreachable!();
            }
        }
    }
}

// The word for a rule: one more than its index, or, where that has no room, a word by its place.
fn word_at(place: usize, index: u64) -> u64
    requires { place < 128 }
    ensures { result ≡ word_for place index }
{
    if index < BIG_INDEX {
        index + 1
    } else {
        BIG_INDEX + 1 + place as u64
    }
}

// From here on a word is made by the place of a rule.
const BIG_INDEX: u64 = 1 << 63;
