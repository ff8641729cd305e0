//! One operation of a lone pass: a known rule is chosen, or one is bound and published; and the site is settled.
ghost use Rattle.std.specs.Prelude.{◌≡◌, ◌+◌, ◌^◌, ◌<◌, ◌≤◌, All, IfOk, length};
ghost use Rattle.call_site.specs.Passes.{IsPassOf, made_of, calls_of, site_count};
ghost use Rattle.cache_levels.specs.LonePasses.{AreLoneOf, EndsHere, IsLoneOf, KeepsLevels, memory_of};
ghost use Rattle.cache_levels.specs.Memories.{Fits};

use crate::answered::{Kept, LoneAnswer};
use crate::operation::Operation;
use binder_cache::{Cache, CachePass, Published};
use call_site::{Level, SitePass, Sites};
use std::alloc::{AllocError, Global};
use std::sync::Wait;

/// Answers an operation at a site, by the number of each site's binder and the cache of each binder: by a known rule
/// that passes, else by one that is bound and published. The one error is want of memory for binding.
///
/// While the passes are alone, the level is that of the operations so far.
pub fn answer<R: Drop, H, O: Operation<R, H>>(
    rt: &impl Wait,
    alloc: Global,
    sites: &Sites,
    caches: &[Cache<R>],
    binders: &[u32],
    pass: &mut SitePass,
    known: &mut [CachePass<R, ()>],
    site: u32,
    operation: &O,
) -> Result<LoneAnswer, AllocError>
    requires own { IsPassOf sites.now pass.old }
    requires one { made_of pass.old ≡ 1 }
    requires few { calls_of pass.old < 2 ^ 60 }
    requires known { AreLoneOf caches.now known.old }
    requires sites { site_count sites.now ≡ length binders.now }
    requires site { site < length binders.now }
    requires binders { All (λ binder. binder < length caches.now) binders.now }
    requires fits { Fits O.tests (O.accepts operation.now) (O.shape operation.now) }
    ensures own { IsPassOf sites.now pass.new }
    ensures one { made_of pass.new ≡ 1 }
    ensures calls { calls_of pass.new ≤ calls_of pass.old + 1 }
    ensures known { AreLoneOf caches.now known.new }
    ensures levels { IfOk result (λ r. KeepsLevels O.tests binders.now site (O.shape operation.now) r.level r.kept
        (memory_of pass.old known.old) (memory_of pass.new known.new)) }
{
    let binder = binders[site as usize] as usize;
    answer_in(
        rt,
        alloc,
        sites,
        &caches[binder],
        pass,
        &mut known[binder],
        site,
        operation,
    )
}

/// The same, with the cache of the site's binder.
fn answer_in<R: Drop, H, O: Operation<R, H>>(
    rt: &impl Wait,
    alloc: Global,
    sites: &Sites,
    cache: &Cache<R>,
    pass: &mut SitePass,
    known: &mut CachePass<R, ()>,
    site: u32,
    operation: &O,
) -> Result<LoneAnswer, AllocError>
    requires own { IsPassOf sites.now pass.old }
    requires one { made_of pass.old ≡ 1 }
    requires few { calls_of pass.old < 2 ^ 60 }
    requires known { IsLoneOf cache.now known.old }
    requires site { site < site_count sites.now }
    ensures own { IsPassOf sites.now pass.new }
    ensures one { made_of pass.new ≡ 1 }
    ensures calls { calls_of pass.new ≤ calls_of pass.old + 1 }
    ensures known { IsLoneOf cache.now known.new }
    ensures ends { IfOk result (λ r. EndsHere O.tests (O.accepts operation.now) (O.shape operation.now)
        (site_count sites.now) site r.level pass.old pass.new known.old known.new r.kept) }
{
    let choice = sites.select(cache, pass, known, site, operation);
    match choice.level {
        Some(level) => {
            let word = known.word(choice.rule);
            sites.settle(pass, site, word, level);
            Ok(LoneAnswer {
                level,
                kept: Kept::Settled,
            })
        }
        None => {
            let rule = operation.bind(alloc)?;
            match cache.publish(rt, known, rule, ()) {
                Ok(Published::At(index)) => {
                    let word = known.word(index);
                    sites.settle(pass, site, word, Level::Bind);
                    Ok(LoneAnswer {
                        level: Level::Bind,
                        kept: Kept::Settled,
                    })
                }
                Ok(Published::Past(_, _)) => Ok(LoneAnswer {
                    level: Level::Bind,
                    kept: Kept::Past,
                }),
                Err(_) => Ok(LoneAnswer {
                    level: Level::Bind,
                    kept: Kept::Dropped,
                }),
            }
        }
    }
}
