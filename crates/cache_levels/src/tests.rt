//! The levels of small runs, as they are worked out by hand.
ghost use Rattle.std.specs.Prelude.{◌≡◌, ◌≤◌, ◌^◌, ◌<◌, length};

use crate::{Kept, LoneAnswer, Operation, answer};
use binder_cache::{Cache, CachePass, Probe};
use call_site::{Level, Sites};
use std::alloc::{AllocError, Global};
use std::sync::Wait;
use std::test::Fail;

// An operation whose shape is a number, which is the rule for it too.
#[derive(Drop)]
struct Numbered(u32);

impl Probe<u32> for Numbered {
    ghost accepts = { λ operation rule. rule ≡ operation.0 };

    fn passes(&self, rule: &u32) -> bool {
        *rule == self.0
    }
}

impl Operation<u32, u32> for Numbered {
    ghost shape = { λ operation. operation.0 };

    ghost tests = { λ rule shape. rule ≡ shape };

    fn bind(&self, _alloc: Global) -> Result<u32, AllocError> {
        Ok(self.0)
    }
}

// How many operations of these shapes at one site are answered at each level, with their rules kept, and how many rules
// are past those that a pass publishes: at the target, the site and the binder, bound, and past.
fn counts(rt: &impl Wait, alloc: Global, shapes: &[u32]) -> Result<[u32; 5], AllocError>
    requires { length shapes.now < 2 ^ 32 }
{
    let (sites, mut pass) = Sites::new(alloc, 1)?;
    let cache: Cache<u32> = Cache::new(alloc)?;
    let known: CachePass<u32, ()> = cache.pass(alloc)?;
    let caches = [cache];
    let mut passes = [known];
    let mut counts = [0u32; 5];
    for shape in shapes {
        let operation = Numbered(*shape);
        let answered = answer(
            rt,
            alloc,
            &sites,
            &caches,
            &[0],
            &mut pass,
            &mut passes,
            0,
            &operation,
        )?;
        let place = place_of(&answered);
        counts[place] = counts[place].saturating_add(1);
    }
    Ok(counts)
}

fn place_of(answered: &LoneAnswer) -> usize
    ensures { result < 5 }
{
    match (answered.level, &answered.kept) {
        (Level::Target, Kept::Settled) => 0,
        (Level::Site, Kept::Settled) => 1,
        (Level::Binder, Kept::Settled) => 2,
        (Level::Bind, Kept::Settled) => 3,
        _ => 4,
    }
}

#[test]
fn a_site_remembers_ten_shapes(rt: HostRuntime) -> Result<(), Fail> {
    assert_eq!(rt; counts(&rt, rt.alloc(), &[5, 5, 5])?, [2, 0, 0, 1, 0]);
    assert_eq!(rt; counts(&rt, rt.alloc(), &[1, 2, 1])?, [0, 1, 0, 2, 0]);
    let ten = [0, 1, 2, 3, 4, 5, 6, 7, 8, 9, 0, 1, 2, 3, 4, 5, 6, 7, 8, 9];
    assert_eq!(rt; counts(&rt, rt.alloc(), &ten)?, [0, 10, 0, 10, 0]);
    let eleven = [
        0, 1, 2, 3, 4, 5, 6, 7, 8, 9, 10, 0, 1, 2, 3, 4, 5, 6, 7, 8, 9, 10,
    ];
    assert_eq!(rt; counts(&rt, rt.alloc(), &eleven)?, [0, 0, 11, 11, 0]);
    let many = [
        0, 1, 2, 3, 4, 5, 6, 7, 8, 9, 10, 11, 12, 13, 14, 15, 16, 17, 18, 19, 20, 21, 22, 23, 24,
        25, 26, 27, 28, 29, 30, 31, 32, 33, 34, 35, 36, 37, 38, 39, 40, 41, 42, 43, 44, 45, 46, 47,
        48, 49, 50, 51, 52, 53, 54, 55, 56, 57, 58, 59, 60, 61, 62, 63, 64,
    ];
    assert_eq!(rt; counts(&rt, rt.alloc(), &many)?, [0, 0, 0, 64, 1]);
    Ok(())
}
