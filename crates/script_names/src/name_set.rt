ghost use Rattle.std.specs.Prelude.{◌≡◌, [], ◌∷◌, ◌++◌, length, take, OnOk};
ghost use Rattle.script_names.specs.Names.{is_in};

#[cfg(test)]
mod tests;

use dyn_value::DynText;
use std::alloc::{AllocError, Global};
use std::collections::HashMap;
use std::marker::Model;

/// Names in the order in which they were added. Whether a name is one of them is found by its text, and no search
/// goes over them.
///
/// Contracts see it as the list of the names.
#[derive(Debug, Drop)]
pub(crate) struct NameSet {
    names: Vec<DynText>,
    /// For the text of each name the first place where it stands. Of names that are gone places may be left.
    places: HashMap<String, usize>,
}

impl Model for NameSet {
    ghost use Rattle.std.specs.Prelude.{List, ℕ};
    ghost use Rattle.std.specs.HashMap.{get_by_text};
    ghost use Rattle.script_names.specs.NamePlaces.{FindsEach};

    ghost Value = { List (List ℕ) };

    ghost view = { λ set. set.names.items };

    ghost invariant = { λ set. FindsEach (get_by_text set.places) set.names.items };
}

impl NameSet {
    /// No names.
    pub(crate) fn new(alloc: Global) -> NameSet
        ensures { result ≡ [] }
    {
        NameSet {
            names: Vec::new(alloc),
            places: HashMap::new(alloc),
        }
    }

    /// How many names there are.
    pub(crate) fn len(&self) -> usize
        ensures { result ≡ length self.now }
    {
        self.names.len()
    }

    /// Whether the name is one of them.
    pub(crate) fn contains(&self, name: &DynText) -> bool
        ensures { result ≡ is_in self.now name.now }
    {
        match self.places.get(name.as_str()) {
            Some(place) => match self.names.get(*place) {
                Some(known) => known.same(name),
                None => false,
            },
            None => false,
        }
    }

    /// Adds the name at the end.
    pub(crate) fn push(&mut self, name: &DynText) -> Result<(), AllocError>
        ensures { OnOk result (self.new ≡ self.old ++ name.now ∷ []) }
    {
        if !self.contains(name) {
            let text = String::from_str(*self.names.allocator(), name.as_str())?;
            self.places.insert(text, self.names.len())?;
        }
        self.names.push(name.copy()?)?;
        Ok(())
    }

    /// Keeps so many names, the first ones.
    pub(crate) fn truncate(&mut self, count: usize)
        ensures { self.new ≡ take count self.old }
    {
        self.names.truncate(count);
    }
}
