//! What no clause says: the levels of small runs, and that a pass finds what another settled.
ghost use Rattle.std.specs.Prelude.{◌≡◌, ◌+◌, ◌^◌, ◌<◌, ◌≤◌, ⊤, length};
ghost use Rattle.binder_cache.specs.Pass as caches;
ghost use Rattle.call_site.specs.Passes.{IsPassOf, site_count, calls_of};

use crate::{Level, SitePass, Sites};
use binder_cache::{Adopt, Cache, CachePass, Probe, Published};
use std::alloc::{AllocError, Global};
use std::sync::Wait;
use std::test::Fail;

// Passes the rule that equals a shape.
#[derive(Drop)]
struct Shape(u32);

impl Probe<u32> for Shape {
    ghost accepts = { λ probe rule. rule ≡ probe.0 };

    fn passes(&self, rule: &u32) -> bool {
        *rule == self.0
    }
}

// Takes all rules.
#[derive(Drop)]
struct Every;

impl Adopt<u32, ()> for Every {
    ghost admits = { λ _ _ _. ⊤ };

    fn adopt(&mut self, _rule: &u32) -> Option<()> {
        Some(())
    }
}

// The level of an operation of this shape, which publishes a rule where none is known.
fn answer(
    rt: &impl Wait,
    sites: &Sites,
    cache: &Cache<u32>,
    pass: &mut SitePass,
    cache_pass: &mut CachePass<u32, ()>,
    site: u32,
    shape: u32,
) -> Level
    requires own { IsPassOf sites.now pass.old }
    requires cache_own { caches.IsPassOf cache.now cache_pass.old }
    requires site { site < site_count sites.now }
    requires few { calls_of pass.old < 2 ^ 60 }
    ensures own { IsPassOf sites.now pass.new }
    ensures cache_own { caches.IsPassOf cache.now cache_pass.new }
    ensures calls { calls_of pass.new ≤ calls_of pass.old + 1 }
{
    let choice = sites.select(cache, pass, cache_pass, site, &Shape(shape));
    if let Some(level) = choice.level {
        sites.settle(pass, site, cache_pass.word(choice.rule), level);
        return level;
    }
    if let Ok(Published::At(index)) = cache.publish(rt, cache_pass, shape, ()) {
        sites.settle(pass, site, cache_pass.word(index), Level::Bind);
    }
    Level::Bind
}

// How many operations of these shapes, in turn at one site, are of each level, in the order of the levels.
fn counts(rt: &impl Wait, alloc: Global, shapes: &[u32]) -> Result<[u32; 4], AllocError>
    requires { length shapes.now < 2 ^ 32 }
{
    let (sites, mut pass) = Sites::new(alloc, 1)?;
    let cache: Cache<u32> = Cache::new(alloc)?;
    let mut cache_pass: CachePass<u32, ()> = cache.pass(alloc)?;
    let mut counts = [0u32; 4];
    for shape in shapes {
        let level = match answer(rt, &sites, &cache, &mut pass, &mut cache_pass, 0, *shape) {
            Level::Target => 0,
            Level::Site => 1,
            Level::Binder => 2,
            Level::Bind => 3,
        };
        counts[level] = counts[level].saturating_add(1);
    }
    Ok(counts)
}

#[test]
fn a_site_remembers_ten_shapes(rt: HostRuntime) -> Result<(), Fail> {
    let ten = [0, 1, 2, 3, 4, 5, 6, 7, 8, 9, 0, 1, 2, 3, 4, 5, 6, 7, 8, 9];
    let eleven = [
        0, 1, 2, 3, 4, 5, 6, 7, 8, 9, 10, 0, 1, 2, 3, 4, 5, 6, 7, 8, 9, 10,
    ];
    assert_eq!(rt; counts(&rt, rt.alloc(), &[5, 5, 5])?, [2, 0, 0, 1]);
    assert_eq!(rt; counts(&rt, rt.alloc(), &[1, 2, 1])?, [0, 1, 0, 2]);
    assert_eq!(rt; counts(&rt, rt.alloc(), &ten)?, [0, 10, 0, 10]);
    assert_eq!(rt; counts(&rt, rt.alloc(), &eleven)?, [0, 0, 11, 11]);
    Ok(())
}

#[test]
fn a_pass_finds_what_another_settled(rt: HostRuntime) -> Result<(), Fail> {
    let (sites, mut first) = Sites::new(rt.alloc(), 2)?;
    let cache: Cache<u32> = Cache::new(rt.alloc())?;
    let mut first_known: CachePass<u32, ()> = cache.pass(rt.alloc())?;
    let mut second_known: CachePass<u32, ()> = cache.pass(rt.alloc())?;
    let mut second = sites.split(&mut first);
    answer(&rt, &sites, &cache, &mut first, &mut first_known, 1, 7);
    let shape = Shape(7);
    let unknown = sites.select(&cache, &mut second, &mut second_known, 1, &shape);
    assert!(rt; matches!(unknown.level, None));
    cache.learn(&mut second_known, &mut Every);
    let there = sites.select(&cache, &mut second, &mut second_known, 1, &shape);
    assert!(rt; matches!(there.level, Some(Level::Target)));
    let elsewhere = sites.select(&cache, &mut second, &mut second_known, 0, &shape);
    assert!(rt; matches!(elsewhere.level, Some(Level::Binder)));
    sites.join(&mut first, second);
    Ok(())
}
