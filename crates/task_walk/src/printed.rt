ghost use Rattle.std.specs.Prelude.{◌≡◌, [], ◌∷◌, ◌++◌, OnOk, OnErr};

use dyn_value::DynText;
use sqlite_items::Items;
use std::alloc::{AllocError, Global};
use std::marker::Model;

/// The lines that a task printed. Contracts see it as the list of them.
#[derive(Debug, Drop)]
pub struct Printed {
    lines: Items<DynText>,
}

impl Model for Printed {
    ghost use Rattle.std.specs.Prelude.{List, ℕ};

    ghost Value = { List (List ℕ) };

    ghost view = { λ p. p.lines };
}

impl Printed {
    /// No lines.
    pub fn new(alloc: Global) -> Printed
        ensures { result ≡ [] }
    {
        Printed {
            lines: Items::new(alloc),
        }
    }

    /// Adds a line at the end. Where memory is refused, the lines stay as they were.
    pub fn push(&mut self, line: DynText) -> Result<(), AllocError>
        ensures ok { OnOk result (self.new ≡ self.old ++ line ∷ []) }
        ensures refused { OnErr result (self.new ≡ self.old) }
    {
        self.lines.push(line)?;
        Ok(())
    }

    /// The lines.
    pub fn into_lines(self) -> Items<DynText>
        ensures { result ≡ self }
    {
        let Printed { lines } = self;
        lines
    }
}
