//! The list of names of one class.
ghost use Rattle.std.specs.Prelude.{◌≡◌, ◌≢◌, ◌<◌, ◌≤◌, ◌++◌, ◌∷◌, [], All, IfOk, IfSome, IfNone, Some, length, slice_get, remove};
ghost use Rattle.std.specs.Str.{chars};
ghost use Rattle.expando_class.specs.Listing.{AreNames, names_eq};

use std::alloc::{AllocError, Global};
use std::hash::{Hash, Hasher};
use std::marker::Model;

/// The names of one class, in the order in which they were added.
///
/// Contracts see each name as the list of its characters.
#[derive(Drop)]
pub struct Names {
    names: Vec<String>,
}

impl Model for Names {
    ghost use Rattle.std.specs.Prelude.{List, ℕ};
    ghost use Rattle.expando_class.specs.Listing.{AreNames, chars_of_each};

    ghost Value = { List (List ℕ) };

    ghost view = { λ a. chars_of_each a.names.items };

    ghost invariant = { λ a. AreNames (chars_of_each a.names.items) };
}

impl Names {
    /// The list of no names.
    pub fn empty(alloc: Global) -> Names
        ensures { result ≡ [] }
    {
        Names {
            names: Vec::new(alloc),
        }
    }

    /// How many names there are.
    pub fn size(&self) -> u16
        ensures size { result ≡ length self.now }
        ensures names { AreNames self.now }
    {
        self.names.len() as u16
    }

    /// The place of a name. `None` exactly where the list has no such name.
    pub fn place_of(&self, name: &str) -> Option<u16>
        ensures some { IfSome result (λ place. slice_get self.now place ≡ Some (chars name.now)) }
        ensures none { IfNone result (All (λ other. other ≢ chars name.now) self.now) }
    {
        for (place, other) in self.names.iter().enumerate() {
            if other.as_str() == name {
                return Some(place as u16);
            }
        }
        None
    }

    /// The name at a place.
    pub fn name_at(&self, place: u16) -> &str
        requires { place < length self.now }
        ensures { slice_get self.now place ≡ Some (chars result.now) }
    {
        self.names[place as usize].as_str()
    }

    /// The names with one more at the end, or want of memory.
    pub fn with(&self, name: &str) -> Result<Names, AllocError>
        requires new { All (λ other. other ≢ chars name.now) self.now }
        requires short { length name.now ≤ 64 }
        requires room { length self.now < 64 }
        ensures { IfOk result (λ names. names ≡ self.now ++ chars name.now ∷ []) }
    {
        let mut names = self.names.clone()?;
        let name = String::from_str(*names.allocator(), name)?;
        names.push(name)?;
        Ok(Names { names })
    }

    /// The names without the one at a place, or want of memory.
    pub fn without(&self, place: u16) -> Result<Names, AllocError>
        requires { place < length self.now }
        ensures { IfOk result (λ names. names ≡ remove self.now place) }
    {
        let mut names = self.names.clone()?;
        names.remove(place as usize);
        Ok(Names { names })
    }
}

impl Clone for Names {
    ghost is_clone = { λ one other. other ≡ one };

    fn clone(&self) -> Result<Names, AllocError> {
        Ok(Names {
            names: self.names.clone()?,
        })
    }
}

impl PartialEq for Names {
    ghost use Rattle.std.specs.Cmp.{partial_equiv_from_equiv};
    ghost use Rattle.std.proofs.lemmas.Cmp.{lists_equiv, nat_list_eq_equiv};

    ghost eq = { names_eq };

    ghost laws = { partial_equiv_from_equiv (lists_equiv nat_list_eq_equiv) };

    fn eq(&self, other: &Names) -> bool {
        self.names == other.names
    }
}

impl Eq for Names {
    ghost use Rattle.std.proofs.lemmas.Cmp.{lists_equiv, nat_list_eq_equiv};

    ghost laws = { lists_equiv nat_list_eq_equiv };
}

impl Hash for Names {
    ghost use Rattle.std.specs.Hash.{same_Alike};
    ghost use Rattle.std.specs.Cmp.Lexicographic.{bytes_decides, pointwise_decides};
    ghost use Rattle.expando_class.specs.Listing.{fed_names};

    ghost hash_input = { fed_names };

    ghost respects_eq = { (same_Alike fed_names (pointwise_decides bytes_decides)).fed };

    fn hash<H: Hasher>(&self, state: &mut H) {
        self.names.hash(state);
    }
}
