ghost use Rattle.std.specs.Prelude.{◌≡◌, ◌≤◌, ◌↔◌, IsTrue, length};
ghost use Rattle.standard_binders.specs.Functions.{parameters_of, HaveFewParameters};

use dyn_value::DynText;
use sqlite_items::Items;

/// The functions of a script, by their numbers.
#[derive(Debug, Drop)]
pub struct FunTable {
    /// The names of each function's parameters, in their order.
    pub params: Items<Items<DynText>>,
}

impl FunTable {
    /// The most parameters that a function of a script has.
    pub const MOST_PARAMETERS: usize = 16;

    /// How many functions there are.
    pub fn len(&self) -> usize
        ensures { result ≡ length self.now.params }
    {
        self.params.len()
    }

    /// The names of the parameters of the function of this number; none where there is no such function.
    pub fn parameters(&self, number: u32) -> &[DynText]
        ensures parameters { result.now ≡ parameters_of self.now.params number }
        ensures few { HaveFewParameters self.now.params → length result.now ≤ 16 }
    {
        match self.params.get(number as usize) {
            Some(parameters) => parameters.as_slice(),
            None => &[],
        }
    }

    /// Whether no function has more than [`FunTable::MOST_PARAMETERS`].
    pub fn has_few_parameters(&self) -> bool
        ensures { IsTrue result ↔ HaveFewParameters self.now.params }
    {
        self.params
            .as_slice()
            .iter()
            .all(|parameters| parameters.len() <= FunTable::MOST_PARAMETERS)
    }
}
