//! The turn of an operation on an object.
ghost use Rattle.std.specs.Prelude.{◌≡◌, ◌<◌, ◌^◌, length, slice_get, IsTrue, None, Some};
ghost use Rattle.standard_binders.specs.Functions.{HaveFewParameters};
ghost use Rattle.dlr_engine.specs.BindingProps.{few_prop};
ghost use Rattle.known_rules.specs.Adoptions.{setting};
ghost use Rattle.known_rules.specs.Knowledge.{published_in, rules_in, setting_of};
ghost use Rattle.dlr_engine.specs.Knowing.{is_chosen, ComesToKnow};
ghost use Rattle.dlr_engine.specs.Minds.{binds_in, table_in};
ghost use Rattle.dlr_engine.specs.Tagged.{AreProperBy, proper_by_prop};

use crate::choosing::Choice;
use crate::making::choose_and_make;
use crate::mind::Mind;
use crate::operation::{Done, Operation};
use binder_cache::Cache;
use expando_class::ClassTable;
use known_rules::KnownRules;
use meta_object::Language;
use object_history::{ObjectRow, RowTag};
use rule::Rule;
use std::alloc::{AllocError, Global};
use std::sync::Wait;
use turn_rows::Step;

/// The turn of an operation: it runs once, and makes the operation by a known rule that passes on the object as it
/// stands, or by one that it binds there. It owns no memory: what it comes to goes out through `made`.
pub(crate) struct Turn<'e, 'p, L: Language, R: Wait> {
    pub(crate) alloc: Global,
    pub(crate) rt: &'e R,
    pub(crate) lang: &'e L,
    pub(crate) table: &'e ClassTable,
    pub(crate) tag: RowTag<'p>,
    pub(crate) operation: Operation<'e>,
    pub(crate) cache: &'e Cache<Rule>,
    // What was chosen before the turn.
    pub(crate) first: Choice,
    // Whether the run has further passes, whose rules may be learned.
    pub(crate) has_others: bool,
    pub(crate) mind: &'e mut Mind,
    pub(crate) known: &'e mut KnownRules,
    // The number of the class that the turn left.
    pub(crate) class: &'e mut u128,
    // What was made, once the turn was had.
    pub(crate) made: &'e mut Option<Result<Done, AllocError>>,
    ghost functions: { tag.functions ≡ length (L.functions lang.now) },
    ghost few: { HaveFewParameters (L.functions lang.now) } by { few_prop (L.functions lang.now) },
    ghost number: { slice_get tag.binders.now operation.head.binder ≡ Some operation.binder.now },
    ghost proper: { AreProperBy tag operation.operands.now } by { proper_by_prop tag operation.operands.now },
    ghost classes: { table_in mind.now ≡ table.now },
    ghost setting: { setting_of known.now ≡ setting cache.now operation.binder.now (L.functions lang.now) table.now },
    ghost chosen: { made.now ≡ None
        → IsTrue (is_chosen (rules_in known.now) operation.operands.now first.class first.rule) },
    ghost few_binds: { made.now ≡ None → binds_in mind.now < 2 ^ 60 },
}

impl<'e, 'p, L: Language, R: Wait> Step<ObjectRow<'p>> for Turn<'e, 'p, L, R> {
    ghost use Rattle.object_history.specs.Histories.{tag_with};
    ghost use Rattle.dlr_engine.specs.Makings.{Turned};

    ghost on = { λ s. tag_with s.tag s.table.now };

    ghost number = { λ s. s.operation.head.pass };

    ghost then = { λ s x t y. (t.mind.ghost_name ≡ s.mind.ghost_name) × (t.known.ghost_name ≡ s.known.ghost_name)
        × (t.class.ghost_name ≡ s.class.ghost_name) × (t.made.ghost_name ≡ s.made.ghost_name)
        × (table_in t.mind.now ≡ table_in s.mind.now) × (setting_of t.known.now ≡ setting_of s.known.now)
        × (published_in t.known.now ≡ published_in s.known.now)
        × ComesToKnow s.has_others (rules_in s.known.now) (rules_in t.known.now)
        × (s.made.now ≡ None → Turned (L.functions s.lang.now) s.table.now s.operation s.mind.now x t.mind.now
        (rules_in t.known.now) y t.made.now) };

    fn run(&mut self, state: &mut ObjectRow<'p>) {
        if self.made.is_some() {
            *self.class = state.state().class().number();
            state.idle();
            return;
        }
        let made = choose_and_make(
            self.rt,
            self.alloc,
            self.lang,
            self.mind,
            self.known,
            self.cache,
            self.table,
            self.has_others,
            self.first,
            &self.operation,
            state,
        );
        if made.is_err() {
            state.idle();
        }
        *self.class = state.state().class().number();
        *self.made = Some(made);
    }
}
