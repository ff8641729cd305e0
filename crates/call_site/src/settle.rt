//! What a site remembers of the rule that was used.
ghost use Rattle.std.specs.Prelude.{◌≡◌, ◌≢◌, ◌+◌, ◌^◌, ◌<◌, ◌≤◌};
ghost use Rattle.call_site.specs.Passes.{IsPassOf, site_count, made_of, calls_of, target_of, ring_of, words_of};
ghost use Rattle.call_site.specs.Settled.{Settles, Entered};
ghost use Rattle.call_site.specs.Places.{entries_in};

use crate::choice::Level;
use crate::places::{count_at, next_place, ring_at, target_at};
use crate::plays::{Draw, Exchange, Store};
use crate::sites::{SitePass, Sites};

impl Sites {
    /// The word of the rule that was used becomes the site's target. Where the rule was found at the binder or bound,
    /// the word is also entered into the site's ring, over the one that was entered first.
    /// The call waits for nobody.
    ///
    /// While only one pass was made, it knows afterwards what target and ring of each site are. With more, other
    /// passes write too, and all that is said is that the call was counted.
    pub fn settle(&self, pass: &mut SitePass, site: u32, word: u64, level: Level)
        requires own { IsPassOf self.now pass.old }
        requires site { site < site_count self.now }
        requires word { word ≢ 0 }
        requires few { calls_of pass.old < 2 ^ 60 }
        ensures own { IsPassOf self.now pass.new }
        ensures made { made_of pass.new ≡ made_of pass.old }
        ensures calls { calls_of pass.new ≡ calls_of pass.old + 1 }
        ensures settles { made_of pass.old ≡ 1 → Settles (site_count self.now) site word level
            (target_of pass.old) (target_of pass.new) (ring_of pass.old) (ring_of pass.new) }
    {
        let words = &self.table.shared;
        words.swap::<Exchange>(&mut pass.seat, target_at(site), word);
        if level.enters() {
            self.enter(pass, site, word);
        }
    }

    // Enters a word into the site's ring, at the place drawn next.
    fn enter(&self, pass: &mut SitePass, site: u32, word: u64)
        requires own { IsPassOf self.now pass.old }
        requires site { site < site_count self.now }
        requires few { calls_of pass.old ≤ 2 ^ 60 }
        requires below { entries_in (words_of pass.old) site < calls_of pass.old }
        ensures own { IsPassOf self.now pass.new }
        ensures made { made_of pass.new ≡ made_of pass.old }
        ensures calls { calls_of pass.new ≡ calls_of pass.old }
        ensures entered { Entered (made_of pass.old) site word (words_of pass.old) (words_of pass.new) }
    {
        let words = &self.table.shared;
        let entries = words.fetch_add::<Draw>(&mut pass.seat, count_at(site), 1);
        words.store::<Store>(&mut pass.seat, ring_at(site, next_place(entries)), word);
    }
}
