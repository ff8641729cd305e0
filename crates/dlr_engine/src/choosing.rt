//! Which known rule an operation is answered by.
ghost use Rattle.std.specs.Prelude.{◌≡◌};
ghost use Rattle.std.specs.List.Sorted.{IsPermutation};
ghost use Rattle.known_rules.specs.Adoptions.{setting};
ghost use Rattle.known_rules.specs.Knowledge.{IsChosen, published_in, rules_in, setting_of};
ghost use Rattle.dlr_engine.specs.Knowing.{ComesToKnow};

use binder_cache::Cache;
use dyn_value::Value;
use expando_class::ClassTable;
use known_rules::KnownRules;
use rule::Rule;
use standard_binders::{Binder, FunTable};

/// The known rule that was chosen on a class of this number, if one passes there.
#[derive(Clone, Copy)]
pub(crate) struct Choice {
    pub(crate) class: u128,
    pub(crate) rule: Option<u64>,
}

/// The index of a known rule that passes on these operands and a class of this number, where one was chosen before. Where
/// none passes, and the run has further passes, their rules are learned.
pub(crate) fn choose(
    known: &mut KnownRules,
    cache: &Cache<Rule>,
    binder: &Binder,
    funs: &FunTable,
    table: &ClassTable,
    has_others: bool,
    operands: &[Value],
    class: u128,
    first: Choice,
) -> Option<u64>
    requires setting { setting_of known.old ≡ setting cache.now binder.now funs.now.params table.now }
    requires first { IsChosen (rules_in known.old) operands.now first.class first.rule }
    ensures chosen { IsChosen (rules_in known.new) operands.now class result }
    ensures among { ComesToKnow has_others (rules_in known.old) (rules_in known.new) }
    ensures published { published_in known.new ≡ published_in known.old }
    ensures setting { setting_of known.new ≡ setting_of known.old }
{
    let chosen = choose_again(known, cache, operands, class, first);
    if chosen.is_some() || !has_others {
        return chosen;
    }
    known.learn(cache, binder, funs, table);
    known.find(cache, operands, class)
}

/// What was chosen before, where it was on a class of this number; otherwise it is chosen again.
fn choose_again(
    known: &mut KnownRules,
    cache: &Cache<Rule>,
    operands: &[Value],
    class: u128,
    first: Choice,
) -> Option<u64>
    requires cache { (setting_of known.old).cache ≡ cache.now }
    requires first { IsChosen (rules_in known.old) operands.now first.class first.rule }
    ensures chosen { IsChosen (rules_in known.new) operands.now class result }
    ensures among { IsPermutation (rules_in known.old) (rules_in known.new) }
    ensures published { published_in known.new ≡ published_in known.old }
    ensures setting { setting_of known.new ≡ setting_of known.old }
{
    if class == first.class {
        first.rule
    } else {
        known.find(cache, operands, class)
    }
}
