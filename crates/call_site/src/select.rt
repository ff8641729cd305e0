//! The choice of a known rule at a site.
ghost use Rattle.std.specs.Prelude.{◌≡◌, ◌≢◌, ◌<◌, All, Any, None, IfSome, IfNone};
ghost use Rattle.binder_cache.specs.Known.{Knows};
ghost use Rattle.binder_cache.specs.Pass.{known_of, SameCounts};
ghost use Rattle.binder_cache.specs.Pass as caches;
ghost use Rattle.call_site.specs.Passes.{IsPassOf, IsSamePass, site_count, made_of, target_of, ring_of, word_of};
ghost use Rattle.call_site.specs.Chosen.{Hits, PassedOver, FirstHit, Chooses, TriesInOrder};

use crate::choice::{Choice, Level};
use crate::places::{RING, count_at, place_of, ring_at, target_at};
use crate::plays::Load;
use crate::sites::{SitePass, Sites};
use binder_cache::{Cache, CachePass, Probe};

impl Sites {
    /// A known rule that passes: the one that the site's target names, else the first that its ring names, from the
    /// word entered last on, else the most recent. A word that names no known rule is passed over.
    /// No rule is chosen exactly where no known rule passes.
    ///
    /// No word changes, and the known rules stay: only where the rule was found at the binder does it come before all
    /// others. The call waits for nobody.
    ///
    /// While only one pass was made, target and ring are those that it settled. With more, other passes write them too.
    pub fn select<R, A, P: Probe<R>>(
        &self,
        cache: &Cache<R>,
        pass: &mut SitePass,
        cache_pass: &mut CachePass<R, A>,
        site: u32,
        probe: &P,
    ) -> Choice
        requires own { IsPassOf self.now pass.old }
        requires cache_own { caches.IsPassOf cache.now cache_pass.old }
        requires site { site < site_count self.now }
        ensures own { IsSamePass pass.old pass.new }
        ensures cache_own { caches.IsPassOf cache.now cache_pass.new }
        ensures counts { SameCounts cache_pass.old cache_pass.new }
        ensures chooses { Chooses (P.accepts probe.now) (known_of cache_pass.old) (known_of cache_pass.new)
            result.level result.rule }
        ensures known { result.level ≢ None → Knows (known_of cache_pass.new) result.rule }
        ensures tries { made_of pass.old ≡ 1 → TriesInOrder (P.accepts probe.now) (target_of pass.old site)
            (ring_of pass.old site) (known_of cache_pass.old) result.level result.rule }
    {
        let target = self.load(pass, target_at(site));
        if let Some(rule) = named_passing(cache, cache_pass, probe, target) {
            return Choice {
                level: Some(Level::Target),
                rule,
            };
        }
        if let Some(rule) = self.in_ring(cache, pass, cache_pass, site, probe) {
            return Choice {
                level: Some(Level::Site),
                rule,
            };
        }
        match cache.find(cache_pass, probe) {
            Some(rule) => Choice {
                level: Some(Level::Binder),
                rule,
            },
            None => Choice {
                level: None,
                rule: 0,
            },
        }
    }

    // The first known rule that the ring names and that passes, from the word entered last on.
    fn in_ring<R, A, P: Probe<R>>(
        &self,
        cache: &Cache<R>,
        pass: &mut SitePass,
        cache_pass: &CachePass<R, A>,
        site: u32,
        probe: &P,
    ) -> Option<u64>
        requires own { IsPassOf self.now pass.old }
        requires cache_own { caches.IsPassOf cache.now cache_pass.now }
        requires site { site < site_count self.now }
        ensures same { IsSamePass pass.old pass.new }
        ensures passes { IfSome result (λ rule.
            Any (λ known. (known.index ≡ rule) × P.accepts probe.now known.rule) (known_of cache_pass.now)) }
        ensures hit { made_of pass.old ≡ 1 → IfSome result
            (FirstHit (P.accepts probe.now) (known_of cache_pass.now) (ring_of pass.old site)) }
        ensures over { made_of pass.old ≡ 1 → IfNone result
            (All (PassedOver (P.accepts probe.now) (known_of cache_pass.now)) (ring_of pass.old site)) }
    {
        let entries = self.load(pass, count_at(site));
        for age in 0..RING {
            let word = self.load(pass, ring_at(site, place_of(entries, age)));
            if let Some(rule) = named_passing(cache, cache_pass, probe, word) {
                return Some(rule);
            }
        }
        None
    }

    // The word as it stands: while only one pass was made, as that pass last wrote it.
    fn load(&self, pass: &mut SitePass, word: usize) -> u64
        requires own { IsPassOf self.now pass.old }
        requires word { word < self.now.table.shared.table_id.words }
        ensures same { IsSamePass pass.old pass.new }
        ensures alone { made_of pass.old ≡ 1 → result ≡ word_of pass.old word }
    {
        self.table.shared.load::<Load>(&mut pass.seat, word)
    }
}

// The index of the known rule that a word names, where it passes.
fn named_passing<R, A, P: Probe<R>>(
    cache: &Cache<R>,
    cache_pass: &CachePass<R, A>,
    probe: &P,
    word: u64,
) -> Option<u64>
    requires { caches.IsPassOf cache.now cache_pass.now }
    ensures hit { IfSome result (Hits (P.accepts probe.now) (known_of cache_pass.now) word) }
    ensures over { IfNone result (PassedOver (P.accepts probe.now) (known_of cache_pass.now) word) }
{
    let rule = cache_pass.named(word)?;
    if probe.passes(cache.show(cache_pass, rule)) {
        Some(rule)
    } else {
        None
    }
}
