//! What becomes of the rules that are bound.
ghost use Rattle.std.specs.Prelude.{◌≡◌, ◌+◌, ◌<◌, ◌≤◌, ◌^◌, ◌-◌, IfSome};
ghost use Rattle.known_rules.specs.Knowledge.{setting_of};
ghost use Rattle.dlr_engine.specs.declared.answer.Level.TheVariants.{Bind};
ghost use Rattle.dlr_engine.specs.Knowing.{kept_in, level_of, IsOwnRule, Leaves};

use crate::answer::Level;
use binder_cache::Cache;
use known_rules::{BoundRule, KnownRules, PublishAnswer};
use rule::Rule;
use std::sync::Wait;

/// The level of an operation, by the rule that was bound for it, if one was. That rule is published; where memory is
/// refused, it is dropped, and counted.
pub(crate) fn publish_bound<R: Wait>(
    rt: &R,
    known: &mut KnownRules,
    cache: &Cache<Rule>,
    dropped: &mut u64,
    bound: Option<BoundRule>,
) -> Level
    requires cache { (setting_of known.old).cache ≡ cache.now }
    requires own { let s = setting_of known.old in IfSome bound (IsOwnRule s.functions s.table s.binder) }
    requires few { dropped.old < 2 ^ 64 - 1 }
    ensures level { result ≡ level_of bound }
    ensures leaves { Leaves result (kept_in known.old dropped.old) (kept_in known.new dropped.new) }
    ensures setting { setting_of known.new ≡ setting_of known.old }
    ensures dropped { dropped.new ≤ dropped.old + 1 }
{
    let Some(bound) = bound else {
        return Level::Binder;
    };
    publish(rt, known, cache, dropped, bound);
    Level::Bind
}

/// Publishes a rule that was bound; where memory is refused, it is dropped, and counted.
fn publish<R: Wait>(
    rt: &R,
    known: &mut KnownRules,
    cache: &Cache<Rule>,
    dropped: &mut u64,
    bound: BoundRule,
)
    requires cache { (setting_of known.old).cache ≡ cache.now }
    requires own { let s = setting_of known.old in IsOwnRule s.functions s.table s.binder bound }
    requires few { dropped.old < 2 ^ 64 - 1 }
    ensures leaves { Leaves Bind (kept_in known.old dropped.old) (kept_in known.new dropped.new) }
    ensures setting { setting_of known.new ≡ setting_of known.old }
    ensures dropped { dropped.new ≤ dropped.old + 1 }
{
    match known.publish(rt, cache, bound) {
        PublishAnswer::At(_) | PublishAnswer::Past => {}
        PublishAnswer::Refused => *dropped += 1,
    }
}
