//! Where the words of a site stand.
ghost use Rattle.std.specs.Prelude.{◌≡◌, ◌<◌};
ghost use Rattle.call_site.specs.Places as places;

/// A site has its target, the words of its ring and its count of entries.
pub(crate) const WORDS_A_SITE: usize = 12;

/// How many words a site's ring has.
pub(crate) const RING: usize = 10;

/// Where the target of a site stands.
pub(crate) fn target_at(site: u32) -> usize
    ensures { result ≡ places.target_at site }
{
    site as usize * WORDS_A_SITE
}

/// Where a place of a site's ring stands.
pub(crate) fn ring_at(site: u32, place: usize) -> usize
    requires { place < 10 }
    ensures { result ≡ places.ring_at site place }
{
    target_at(site) + 1 + place
}

/// Where the count of a site's entries stands.
pub(crate) fn count_at(site: u32) -> usize
    ensures { result ≡ places.count_at site }
{
    target_at(site) + 1 + RING
}

/// The place of the ring that is drawn next, after so many entries.
pub(crate) fn next_place(entries: u64) -> usize
    ensures place { result ≡ places.next_place entries }
    ensures within { result < 10 }
{
    (entries % RING as u64) as usize
}

/// The place of the word entered last (age 0), of the one before it, and so on.
pub(crate) fn place_of(entries: u64, age: usize) -> usize
    requires { age < 10 }
    ensures place { result ≡ places.place_of entries age }
    ensures within { result < 10 }
{
    (next_place(entries) + RING - 1 - age) % RING
}
