//! The merge of two sets of restrictions.
ghost use Rattle.std.specs.Prelude.{◌≡◌, ◌+◌, ◌≤◌, not, filter, length, IfOk, IfErr, OnOk};
ghost use Rattle.restrictions.specs.Merging.{IsRefusal};
ghost use Rattle.restrictions.specs.Sets.{is_in, merged};

use crate::restriction::Restriction;
use crate::set::Restrictions;

/// Why two sets were not merged. Both come back.
#[derive(Debug, Drop)]
pub enum MergeRefused {
    /// Together they have more than [`Restrictions::MOST`] restrictions.
    TooMany(Restrictions, Restrictions),
    /// Memory was refused.
    Memory(Restrictions, Restrictions),
}

impl Restrictions {
    /// These restrictions, followed by those of `other` that are not among them.
    ///
    /// `TooMany` exactly where that would be more than [`Restrictions::MOST`] restrictions; `Memory` is want of
    /// memory. Both hand the two sets back as they were.
    pub fn merge(mut self, other: Restrictions) -> Result<Restrictions, MergeRefused>
        ensures merged { IfOk result (λ rs. rs ≡ merged self other) }
        ensures few { OnOk result (length (merged self other) ≤ 16) }
        ensures refused { IfErr result (IsRefusal self other) }
    {
        let fresh = self.fresh_in(&other);
        if self.items.len() + fresh > Restrictions::MOST {
            return Err(MergeRefused::TooMany(self, other));
        }
        if self.items.reserve(fresh).is_err() {
            return Err(MergeRefused::Memory(self, other));
        }
        let Restrictions { items } = other;
        let mut more = self.without_own(items);
        match self.items.append(&mut more) {
            Ok(()) => Ok(self),
            Err(_) => unreachable!(),
        }
    }

    /// The restrictions of a list that are not among these.
    fn without_own(&self, mut items: Vec<Restriction>) -> Vec<Restriction>
        ensures { result.items ≡ filter (λ r. not (is_in r self.now)) items.items }
    {
        items.retain(|restriction| !self.has(restriction));
        items
    }

    /// How many restrictions of `other` are not among these.
    fn fresh_in(&self, other: &Restrictions) -> usize
        ensures { length self.now + result ≡ length (merged self.now other.now) }
    {
        other
            .items
            .iter()
            .filter(|restriction| !self.has(restriction))
            .count()
    }
}
