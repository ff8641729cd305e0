//! Operations on objects.
ghost use Rattle.std.specs.Prelude.{◌≡◌, ◌∷◌, Some, true};
ghost use Rattle.dyn_value.specs.declared.value.Value.TheVariants as value;
ghost use Rattle.object_model.specs.Steps.{on_object};
ghost use Rattle.rule_model.specs.Soundness.{Suit};
ghost use Rattle.script_program.specs.Names.{has_short_names};

use dyn_value::{Outcome, Value};
use known_rules::BoundRule;
use object_history::EntryHead;
use standard_binders::Binder;

/// An operation on an object: its binder, the head of its entry, the object's number, all operands, of which the object
/// is the first, and those after it.
#[derive(Clone, Copy)]
pub(crate) struct Operation<'a> {
    pub(crate) binder: &'a Binder,
    pub(crate) head: EntryHead,
    pub(crate) object: u32,
    pub(crate) operands: &'a [Value],
    pub(crate) arguments: &'a [Value],
    ghost on: { on_object binder.now operands.now ≡ Some (record { object = object; operands = arguments.now }) },
    ghost target: { operands.now ≡ value.Obj object ∷ arguments.now },
    ghost short_names: { has_short_names binder.now ≡ true },
    ghost suit: { Suit binder.now operands.now },
}

/// What came of an operation on an object, and the number of its entry in the object's journal.
#[derive(Drop)]
pub(crate) struct Made {
    pub(crate) outcome: Outcome,
    pub(crate) place: u64,
}

/// What was made, and the rule that was bound for it, if none was known.
#[derive(Drop)]
pub(crate) struct Done {
    pub(crate) made: Made,
    pub(crate) bound: Option<BoundRule>,
}
