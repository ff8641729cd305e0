//! What no clause says: which indexes rules get, that a pass learns all that others finished while it has room, and
//! that threads share a cache.
ghost use Rattle.std.specs.Prelude.{◌≡◌, ⊤};
ghost use Rattle.binder_cache.specs.Pass.{IsPassOf};

use crate::{Adopt, Cache, CachePass, Probe, Published};
use std::alloc::{AllocError, Global};
use std::sync::Wait;
use std::test::Fail;
use std::thread;

// Passes the rule that equals a number.
#[derive(Drop)]
struct Equals(u32);

impl Probe<u32> for Equals {
    ghost accepts = { λ probe rule. rule ≡ probe.0 };

    fn passes(&self, rule: &u32) -> bool {
        *rule == self.0
    }
}

// Takes the even rules, with half of each as its note.
#[derive(Drop)]
struct Halves;

impl Adopt<u32, u32> for Halves {
    ghost admits = { λ _ _ _. ⊤ };

    fn adopt(&mut self, rule: &u32) -> Option<u32> {
        if *rule % 2 == 0 {
            Some(*rule / 2)
        } else {
            None
        }
    }
}

// Takes all rules, with each as its own note.
#[derive(Drop)]
struct Every;

impl Adopt<u32, u32> for Every {
    ghost admits = { λ _ rule note. note ≡ rule };

    fn adopt(&mut self, rule: &u32) -> Option<u32> {
        Some(*rule)
    }
}

// The rule that equals a number, with its note and its word.
fn shown(cache: &Cache<u32>, pass: &mut CachePass<u32, u32>, rule: u32) -> Option<(u32, u32, u64)>
    requires { IsPassOf cache.now pass.old }
    ensures { IsPassOf cache.now pass.new }
{
    let index = cache.find(pass, &Equals(rule))?;
    Some((
        *cache.show(pass, index),
        *cache.note(pass, index),
        pass.word(index),
    ))
}

// Publishes the rules from `first` on, each with itself as its note, and says how many got an index.
fn publish_run(
    rt: &impl Wait,
    cache: &Cache<u32>,
    pass: &mut CachePass<u32, u32>,
    first: u32,
    count: u32,
) -> u32
    requires { IsPassOf cache.now pass.old }
    ensures { IsPassOf cache.now pass.new }
{
    let mut placed = 0u32;
    for step in 0..count {
        let rule = first.wrapping_add(step);
        if let Ok(Published::At(_)) = cache.publish(rt, pass, rule, rule) {
            placed = placed.saturating_add(1);
        }
    }
    placed
}

// How many of the rules from `first` on the pass finds, each with itself as its note.
fn found_of(cache: &Cache<u32>, pass: &mut CachePass<u32, u32>, first: u32, count: u32) -> u32
    requires { IsPassOf cache.now pass.old }
    ensures { IsPassOf cache.now pass.new }
{
    let mut found = 0u32;
    for step in 0..count {
        let rule = first.wrapping_add(step);
        if let Some((shown, note, _)) = shown(cache, pass, rule) {
            if (shown, note) == (rule, rule) {
                found = found.saturating_add(1);
            }
        }
    }
    found
}

// How many rules of each of three passes this one finds.
fn found_of_each(cache: &Cache<u32>, pass: &mut CachePass<u32, u32>) -> [u32; 3]
    requires { IsPassOf cache.now pass.old }
    ensures { IsPassOf cache.now pass.new }
{
    [
        found_of(cache, pass, 0, 100),
        found_of(cache, pass, 100, 100),
        found_of(cache, pass, 200, 100),
    ]
}

// Three passes publish so many rules one after the other, and then each learns: what each finds of each.
fn learn_from_each_other(
    rt: &impl Wait,
    alloc: Global,
    counts: [u32; 3],
) -> Result<[[u32; 3]; 3], AllocError> {
    let cache: Cache<u32> = Cache::new(alloc)?;
    let mut first: CachePass<u32, u32> = cache.pass(alloc)?;
    let mut second: CachePass<u32, u32> = cache.pass(alloc)?;
    let mut third: CachePass<u32, u32> = cache.pass(alloc)?;
    publish_run(rt, &cache, &mut first, 0, counts[0]);
    publish_run(rt, &cache, &mut second, 100, counts[1]);
    publish_run(rt, &cache, &mut third, 200, counts[2]);
    cache.learn(&mut first, &mut Every);
    cache.learn(&mut second, &mut Every);
    cache.learn(&mut third, &mut Every);
    Ok([
        found_of_each(&cache, &mut first),
        found_of_each(&cache, &mut second),
        found_of_each(&cache, &mut third),
    ])
}

// The pass after it published so many rules, in whatever thread that is.
fn having_published(
    rt: &impl Wait,
    cache: &Cache<u32>,
    mut pass: CachePass<u32, u32>,
    first: u32,
    count: u32,
) -> CachePass<u32, u32>
    requires { IsPassOf cache.now pass }
    ensures { IsPassOf cache.now result }
{
    publish_run(rt, cache, &mut pass, first, count);
    pass
}

// The pass after it learned so often, in whatever thread that is.
fn having_learned(
    cache: &Cache<u32>,
    mut pass: CachePass<u32, u32>,
    times: u32,
) -> CachePass<u32, u32>
    requires { IsPassOf cache.now pass }
    ensures { IsPassOf cache.now result }
{
    for _time in 0..times {
        cache.learn(&mut pass, &mut Every);
    }
    pass
}

#[test]
fn a_pass_finds_what_another_published(rt: HostRuntime) -> Result<(), Fail> {
    let cache: Cache<u32> = Cache::new(rt.alloc())?;
    let mut first: CachePass<u32, u32> = cache.pass(rt.alloc())?;
    let mut second: CachePass<u32, u32> = cache.pass(rt.alloc())?;
    for rule in 10..13u32 {
        let published = cache.publish(&rt, &mut first, rule, 0).ok();
        assert!(rt;
            matches!(published, Some(Published::At(index)) if index == u64::from(rule - 10))
        );
    }
    assert_eq!(rt; cache.find(&mut second, &Equals(12)), None);
    cache.learn(&mut second, &mut Halves);
    cache.learn(&mut first, &mut Halves);
    assert_eq!(rt; (first.published(), first.foreign()), (3, 0));
    assert_eq!(rt; (second.published(), second.foreign()), (0, 2));
    assert_eq!(rt;
        (second.at(0), second.at(1), second.at(2)),
        (Some(2), Some(0), None)
    );
    assert_eq!(rt; cache.find(&mut second, &Equals(11)), None);
    assert_eq!(rt; cache.find(&mut second, &Equals(10)), Some(0));
    assert_eq!(rt; (second.at(0), second.at(1)), (Some(0), Some(2)));
    assert_eq!(rt; shown(&cache, &mut second, 12), Some((12, 6, 3)));
    assert_eq!(rt; shown(&cache, &mut first, 11), Some((11, 0, 2)));
    assert_eq!(rt;
        (second.named(1), second.named(2), second.named(3)),
        (Some(0), None, Some(2))
    );
    Ok(())
}

#[test]
fn the_65th_rule_is_past(rt: HostRuntime) -> Result<(), Fail> {
    let cache: Cache<u32> = Cache::new(rt.alloc())?;
    let mut pass: CachePass<u32, u32> = cache.pass(rt.alloc())?;
    assert_eq!(rt; publish_run(&rt, &cache, &mut pass, 0, 64), 64);
    assert_eq!(rt; pass.published(), 64);
    let past = cache.publish(&rt, &mut pass, 64, 7).ok();
    assert!(rt; matches!(past, Some(Published::Past(64, 7))));
    assert_eq!(rt; cache.find(&mut pass, &Equals(64)), None);
    let index = cache.find(&mut pass, &Equals(5)).expect(&rt, "known");
    assert_eq!(rt; (index, pass.at(0)), (5, Some(5)));
    Ok(())
}

#[test]
fn passes_learn_all_while_there_is_room(rt: HostRuntime) -> Result<(), Fail> {
    for (counts, found) in [
        ([1, 0, 0], [[1, 0, 0], [1, 0, 0], [1, 0, 0]]),
        ([64, 0, 0], [[64, 0, 0], [64, 0, 0], [64, 0, 0]]),
        ([40, 24, 0], [[40, 24, 0], [40, 24, 0], [40, 24, 0]]),
        ([30, 31, 32], [[30, 31, 32], [30, 31, 32], [30, 31, 32]]),
        ([20, 64, 64], [[20, 64, 0], [20, 64, 44], [20, 44, 64]]),
        ([64, 64, 64], [[64, 64, 0], [64, 64, 0], [64, 0, 64]]),
    ] {
        assert_eq!(rt;
            learn_from_each_other(&rt, rt.alloc(), counts)?,
            found,
            "{counts:?}"
        );
    }
    Ok(())
}

#[test]
fn threads_learn_from_each_other(rt: HostRuntime) -> Result<(), Fail> {
    let cache: Cache<u32> = Cache::new(rt.alloc())?;
    let first: CachePass<u32, u32> = cache.pass(rt.alloc())?;
    let second: CachePass<u32, u32> = cache.pass(rt.alloc())?;
    // One learns while the other publishes, and once more after the join.
    let (first, second) = thread::join(
        &rt,
        || having_published(&rt, &cache, first, 0, 20),
        || having_learned(&cache, second, 20),
    );
    let (mut second, first) = thread::join(
        &rt,
        || having_learned(&cache, second, 1),
        || having_learned(&cache, first, 1),
    );
    assert_eq!(rt; (first.foreign(), second.foreign()), (0, 20));
    assert_eq!(rt; found_of(&cache, &mut second, 0, 20), 20);
    // Both publish at once, and then each learns what the other published.
    let (first, second) = thread::join(
        &rt,
        || having_published(&rt, &cache, first, 20, 44),
        || having_published(&rt, &cache, second, 100, 64),
    );
    let (mut first, mut second) = thread::join(
        &rt,
        || having_learned(&cache, first, 1),
        || having_learned(&cache, second, 1),
    );
    assert_eq!(rt; found_of_each(&cache, &mut first), [64, 64, 0]);
    assert_eq!(rt; found_of_each(&cache, &mut second), [64, 64, 0]);
    Ok(())
}
