//! The list that contracts see, and its calls.
ghost use Rattle.std.specs.Prelude.{◌≡◌, ◌+◌, ◌-◌, ◌<◌, List, ℕ, [], ◌∷◌, ◌++◌, length, slice_get, Contains, Some};
ghost use Rattle.rule_order.specs.Order.{IsOrder};

use crate::links::{END, Links};
use std::marker::Model;

/// A list of distinct indexes below 128, most recent first. It takes no memory but its own.
#[derive(Drop)]
pub struct Order {
    links: Links,
}

impl Model for Order {
    ghost use Rattle.std.specs.Prelude.{List, ℕ};
    ghost use Rattle.rule_order.specs.Ring.{indexes_along, IsRing};

    ghost Value = { List ℕ };

    ghost view = { λ order. indexes_along order.links.next };

    ghost invariant = { λ order. IsRing order.links.next order.links.previous };
}

impl Order {
    /// The empty list.
    pub fn new() -> Order
        ensures { result ≡ [] }
    {
        Order {
            links: Links::new(),
        }
    }

    /// Puts an index that is not in the list before all others.
    pub fn push_front(&mut self, index: u8)
        requires small { index < 128 }
        requires absent { ¬ Contains self.old index }
        ensures pushed { self.new ≡ index ∷ self.old }
        ensures order { IsOrder self.new }
    {
        let links = &mut self.links;
        let first = links.next[END as usize];
        links.join(index, first);
        links.join(END, index);
    }

    /// Takes an index of the list out. The others keep their order.
    pub fn remove(&mut self, index: u8)
        requires { Contains self.old index }
        ensures removed { (before after : List ℕ) → self.old ≡ before ++ index ∷ after → self.new ≡ before ++ after }
        ensures absent { ¬ Contains self.new index }
        ensures small { index < 128 }
        ensures order { IsOrder self.new }
    {
        let links = &mut self.links;
        let before = links.previous[index as usize];
        let after = links.next[index as usize];
        links.join(before, after);
    }

    /// Brings an index of the list before all others, which keep their order.
    pub fn to_front(&mut self, index: u8)
        requires { Contains self.old index }
        ensures moved { (before after : List ℕ) → self.old ≡ before ++ index ∷ after → self.new ≡ index ∷ before ++ after }
        ensures order { IsOrder self.new }
    {
        self.remove(index);
        self.push_front(index);
    }

    /// The most recent index. `None` exactly where the list is empty.
    pub fn first(&self) -> Option<u8>
        ensures first { result ≡ slice_get self.now 0 }
        ensures order { IsOrder self.now }
    {
        index_at(self.links.next[END as usize])
    }

    /// The least recent index. `None` exactly where the list is empty.
    pub fn last(&self) -> Option<u8>
        ensures last { result ≡ slice_get self.now (length self.now - 1) }
        ensures order { IsOrder self.now }
    {
        index_at(self.links.previous[END as usize])
    }

    /// The index right after one of the list. `None` exactly at the last.
    pub fn next(&self, index: u8) -> Option<u8>
        requires { Contains self.now index }
        ensures next { (place : ℕ) → slice_get self.now place ≡ Some index → result ≡ slice_get self.now (place + 1) }
        ensures order { IsOrder self.now }
    {
        index_at(self.links.next[index as usize])
    }
}

// What stands at a place of the ring: an index, or nothing at the end.
fn index_at(place: u8) -> Option<u8>
    ensures index { place < 128 → result ≡ Some place }
    ensures end { place ≡ 128 → result ≡ None }
{
    if place == END { None } else { Some(place) }
}
