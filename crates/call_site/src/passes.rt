//! How sites are made, and how their passes are made and joined.
ghost use Rattle.std.specs.Prelude.{◌≡◌, ◌≢◌, ◌+◌, ◌<◌, ℕ, replicate, IfOk};
ghost use Rattle.call_site.specs.Passes.{IsPassOf, IsSamePass, site_count, made_of, calls_of, target_of, ring_of};

use crate::memo::Count;
use crate::places::WORDS_A_SITE;
use crate::plays::{Cut, Keep};
use crate::sites::{SitePass, Sites};
use atomic_table::Table;
use std::alloc::{AllocError, Global};

impl Sites {
    /// So many sites, which remember no rule, with their first pass. The error is want of memory.
    /// All memory is taken here: no other call on sites or passes takes any.
    pub fn new(alloc: Global, count: u32) -> Result<(Sites, SitePass), AllocError>
        ensures count { IfOk result (λ r. site_count r.0 ≡ count) }
        ensures own { IfOk result (λ r. IsPassOf r.0 r.1) }
        ensures first { IfOk result (λ r. (made_of r.1 ≡ 1) × (calls_of r.1 ≡ 0)) }
        ensures targets { IfOk result (λ r. (site : ℕ) → target_of r.1 site ≡ 0) }
        ensures rings { IfOk result (λ r. (site : ℕ) → ring_of r.1 site ≡ replicate 10 0) }
    {
        // A table has one word at least: where there is no site, no site names it.
        let wide = (count as usize * WORDS_A_SITE).max(1);
        let words = Vec::from_elem(alloc, 0u64, wide)?;
        let key = Count { words: wide as u64 };
        let (table, seat) = Table::of_words(alloc, words.as_slice(), &key)?;
        Ok((Sites { table, count }, SitePass { seat }))
    }

    /// One more pass. Only the first pass makes others, and only while fewer than 8 were made.
    /// It is otherwise as before.
    pub fn split(&self, pass: &mut SitePass) -> SitePass
        requires own { IsPassOf self.now pass.old }
        requires first { made_of pass.old ≢ 0 }
        requires few { made_of pass.old < 8 }
        ensures own { IsPassOf self.now pass.new × IsPassOf self.now result }
        ensures made { made_of pass.new ≡ made_of pass.old + 1 }
        ensures calls { calls_of pass.new ≡ calls_of pass.old }
        ensures other { (made_of result ≡ 0) × (calls_of result ≡ 0) }
    {
        SitePass {
            seat: self.table.shared.split_seat::<Cut>(&mut pass.seat),
        }
    }

    /// Takes in another pass of these sites, which ends. The pass is as before.
    pub fn join(&self, pass: &mut SitePass, other: SitePass)
        requires own { IsPassOf self.now pass.old × IsPassOf self.now other }
        ensures own { IsPassOf self.now pass.new }
        ensures same { IsSamePass pass.old pass.new }
    {
        let SitePass { seat } = other;
        self.table.shared.join_seat::<Keep>(&mut pass.seat, seat);
    }
}
