//! What was chosen at a site, and how it was found.
ghost use Rattle.std.specs.Prelude.{◌≡◌};

/// How the rule was found by which an operation was answered.
#[derive(Clone, Copy, Debug)]
pub enum Level {
    /// It is the one that was used last at the site.
    Target,
    /// It is one of those that were used at the site.
    Site,
    /// It is one of those that the pass knew of the binder.
    Binder,
    /// It was bound for this operation.
    Bind,
}

impl Level {
    ghost use Rattle.call_site.specs.Passes.{enters};

    // Whether a rule that was found so is entered into the site's ring.
    pub(crate) fn enters(self) -> bool
        ensures { result ≡ enters self }
    {
        match self {
            Level::Target | Level::Site => false,
            Level::Binder | Level::Bind => true,
        }
    }
}

/// What `select` chose among the known rules.
#[derive(Debug, Drop)]
pub struct Choice {
    /// How the rule was found; `None` where no rule was chosen.
    pub level: Option<Level>,
    /// The index of the rule that was chosen; 0 where none was.
    pub rule: u64,
}
