//! References to classes.
ghost use Rattle.std.specs.Prelude.{◌≡◌, []};

use crate::names::Names;

/// Shows the number and the names of a class of the table that it is of, for as long as the table lasts.
#[derive(Drop)]
pub struct ClassRef {
    // none of the root
    pub(crate) token: Option<boxcar::Pushed<Names>>,
}

impl ClassRef {
    ghost use Rattle.expando_class.specs.Class.{number_of, names_of};

    // The root class, which has no names.
    pub(crate) fn root() -> ClassRef
        ensures number { number_of result ≡ 0 }
        ensures names { names_of result ≡ [] }
    {
        ClassRef { token: None }
    }

    /// The number of the class, 0 for the root.
    pub fn number(&self) -> u128
        ensures { result ≡ number_of self.now }
    {
        match &self.token {
            None => 0,
            Some(token) => token.index() as u128 + 1,
        }
    }

    /// A second reference to the same class. It takes no memory.
    pub fn copy(&self) -> ClassRef
        ensures { result ≡ self.now }
    {
        match &self.token {
            None => ClassRef { token: None },
            Some(token) => ClassRef {
                token: Some(token.again()),
            },
        }
    }
}
