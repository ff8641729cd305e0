//! What a run came to.
use crate::answer::Levels;
use crate::pass::Drawn;
use dyn_value::Entry;
use sqlite_items::Items;

/// The history of each object of a run, what each pass drew, and how many operations were answered at each level.
/// [`Engine::close`](crate::Engine::close) alone makes one.
#[derive(Debug, Drop)]
pub struct Closed {
    pub(crate) journals: Items<Items<Entry>>,
    pub(crate) drawn: Items<Items<Drawn>>,
    pub(crate) levels: Levels,
}

impl Closed {
    ghost use Rattle.std.specs.Prelude.{◌≡◌};
    ghost use Rattle.dlr_engine.specs.Closing.{drawn_in, journals_in, levels_in};

    /// The journals of all objects, by their numbers.
    pub fn journals(&self) -> &[Items<Entry>]
        ensures { result.now ≡ journals_in self.now }
    {
        self.journals.as_slice()
    }

    /// What each pass drew, in order, by the numbers of the passes.
    pub fn drawn(&self) -> &[Items<Drawn>]
        ensures { result.now ≡ drawn_in self.now }
    {
        self.drawn.as_slice()
    }

    /// How many operations all passes answered at each level.
    pub fn levels(&self) -> &Levels
        ensures { result.now ≡ levels_in self.now }
    {
        &self.levels
    }
}
