//! What the engine answers, and how it came to it.
use dyn_value::Outcome;

/// How the rule was found by which an operation was answered.
#[derive(Clone, Copy, Debug)]
pub enum Level {
    /// It is the one that was used last at the site.
    Target,
    /// It is one of those that were used at the site.
    Site,
    /// It is one of those that the pass knew of the binder.
    Binder,
    /// It was bound for this operation.
    Bind,
}

/// What the engine answers to an operation.
#[derive(Debug, Drop)]
pub struct Answer {
    /// What came of the operation.
    pub outcome: Outcome,
    /// How its rule was found.
    pub level: Level,
    /// The number of the object that it was on, if it was on one.
    pub row: Option<u32>,
    /// The number of its entry in the object's journal; 0 where it was on none.
    pub place: u64,
}

/// How many operations were answered at each level.
#[derive(Clone, Copy, Debug)]
pub struct Levels {
    /// By the rule that was used last at the site.
    pub target: u64,
    /// By another one that was used at the site.
    pub site: u64,
    /// By one that the pass knew of the binder.
    pub binder: u64,
    /// By one that was bound for the operation.
    pub binds: u64,
}

impl Levels {
    ghost use Rattle.dlr_engine.specs.Levels.{added, no_levels, raised, total};
    ghost use Rattle.std.specs.Prelude.{◌≡◌, ◌^◌, ◌<◌, ◌+◌, ◌-◌};

    /// No operation was answered.
    pub(crate) fn none() -> Levels
        ensures none { result ≡ no_levels }
        ensures total { total result ≡ 0 }
    {
        Levels {
            target: 0,
            site: 0,
            binder: 0,
            binds: 0,
        }
    }

    /// One more operation of a level.
    pub(crate) fn raise(&mut self, level: Level)
        requires { total self.old < 2 ^ 64 - 1 }
        ensures raised { self.new ≡ raised level self.old }
        ensures total { total self.new ≡ total self.old + 1 }
    {
        match level {
            Level::Target => self.target += 1,
            Level::Site => self.site += 1,
            Level::Binder => self.binder += 1,
            Level::Bind => self.binds += 1,
        }
    }

    /// Those of the other besides, at each level.
    pub(crate) fn add(&mut self, other: &Levels)
        requires { total self.old + total other.now < 2 ^ 64 }
        ensures added { self.new ≡ added self.old other.now }
        ensures total { total self.new ≡ total self.old + total other.now }
    {
        self.target += other.target;
        self.site += other.site;
        self.binder += other.binder;
        self.binds += other.binds;
    }
}
