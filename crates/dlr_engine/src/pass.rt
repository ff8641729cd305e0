//! Passes.
ghost use Rattle.std.specs.Prelude.{◌≡◌, ◌≤◌, ◌^◌, map};
ghost use Rattle.turn_rows.specs.Passes.{log_of};
ghost use Rattle.dlr_engine.specs.Draws.{number_drawn};
ghost use Rattle.dlr_engine.specs.Levels.{total};
ghost use Rattle.dlr_engine.specs.Minds.{binds_in};

use crate::answer::Levels;
use crate::mind::Mind;
use answered_operations::Answered;
use known_rules::KnownRules;
use object_history::ObjectRow;
use std::alloc::Global;
use turn_rows::RowPass;

/// A number that was drawn, and the task for which it was.
#[derive(Clone, Copy, Debug)]
pub struct Drawn {
    /// The number of the task.
    pub task: u32,
    /// The number that was drawn.
    pub number: u64,
}

/// What one thread of a run knows. Each call that operates or draws takes a pass.
///
/// Contracts see it as its number, for each row what it has seen there and what it made, what it drew, how many
/// operations it answered at each level, which these were, how often it bound, and how many calls it was taken for; of each
/// binder the rules that it knows and how many it published, and how many rules it dropped.
#[derive(Drop)]
pub struct Pass<'p> {
    pub(crate) rows: RowPass<ObjectRow<'p>>,
    pub(crate) mind: Mind,
    // Of each binder the rules that it knows.
    pub(crate) known: Vec<KnownRules>,
    // Of each object the number of the class that it last saw there.
    pub(crate) classes: Vec<u128>,
    pub(crate) drawn: Vec<Drawn>,
    pub(crate) levels: Levels,
    // How many operations and draws were asked.
    pub(crate) calls: u64,
    // How many rules were dropped for want of memory.
    pub(crate) dropped: u64,
    // The operations that it answered, which contracts see.
    pub(crate) answered: Answered,
    ghost numbers: { map number_drawn drawn.items ≡ (log_of rows).draws },
    ghost counted: { ((log_of rows).calls ≤ calls) × (binds_in mind ≤ calls) × (total levels ≤ calls) },
    // So the counts of all passes have a sum.
    ghost few: { calls ≤ 2 ^ 60 },
    ghost few_dropped: { dropped ≤ calls },
}

impl<'p> Pass<'p> {
    ghost use Rattle.std.specs.Prelude.{[]};
    ghost use Rattle.object_history.specs.Histories.{by_of, mark_of, turns_of, whole_tag_of};
    ghost use Rattle.object_history.specs.Rows.{journal_of};
    ghost use Rattle.turn_rows.specs.Passes.{kept_of, IsFresh};
    ghost use Rattle.turn_rows.specs.Rule.{meaning};
    ghost use Rattle.answered_operations.specs.Operations.{operations_of};
    ghost use Rattle.dlr_engine.specs.Knowing.{KnowsNone};
    ghost use Rattle.dlr_engine.specs.Passes.{binds_of, calls_of, drawn_of, dropped_of, kept_in, levels_of, log_in, number_of, IsNew};

    /// A pass that has done nothing, which knows so of the rows, and this of the binders' rules and the objects' classes.
    pub(crate) fn new(
        alloc: Global,
        rows: RowPass<ObjectRow<'p>>,
        mind: Mind,
        known: Vec<KnownRules>,
        classes: Vec<u128>,
        answered: Answered,
    ) -> Pass<'p>
        requires fresh { IsFresh (meaning journal_of by_of turns_of whole_tag_of mark_of) (log_of rows) }
        requires kept { kept_of rows ≡ [] }
        requires binds { binds_in mind ≡ 0 }
        requires none { KnowsNone known.items }
        requires unanswered { operations_of answered ≡ [] }
        ensures rows { result.rows ≡ rows.entry }
        ensures mind { result.mind ≡ mind }
        ensures known { result.known ≡ known }
        ensures classes { result.classes ≡ classes }
        ensures answered { result.answered ≡ answered }
        ensures new { IsNew result }
    {
        Pass {
            rows,
            mind,
            known,
            classes,
            drawn: Vec::new(alloc),
            levels: Levels::none(),
            calls: 0,
            dropped: 0,
            answered,
        }
    }

    /// Its number: 0 of the first pass of an engine, and of each other one how many were made before it.
    pub fn number(&self) -> u32
        ensures { result ≡ number_of self.now }
    {
        self.rows.number()
    }

    /// What it drew, in order.
    pub fn drawn(&self) -> &[Drawn]
        ensures { result.now ≡ drawn_of self.now }
    {
        self.drawn.as_slice()
    }

    /// How many operations it answered at each level.
    pub fn levels(&self) -> &Levels
        ensures { result.now ≡ levels_of self.now }
    {
        &self.levels
    }

    /// How often it bound.
    pub fn binds(&self) -> u64
        ensures { result ≡ binds_of self.now }
    {
        self.mind.binds()
    }

    /// How many rules that it bound it dropped, where memory was refused to publish them.
    pub fn dropped(&self) -> u64
        ensures { result ≡ dropped_of self.now }
    {
        self.dropped
    }

    /// How many operations and draws it was asked for.
    pub fn calls(&self) -> u64
        ensures { result ≡ calls_of self.now }
    {
        self.calls
    }
}
