//! How an operation was answered.

use call_site::Level;

/// What became of the rule by which an operation was answered.
#[derive(Debug, Drop)]
pub enum Kept {
    /// It is known, and the operation's site is settled with its word.
    Settled,
    /// It was bound and then dropped: its pass had published 64 of the binder.
    Past,
    /// It was bound and then dropped for want of memory.
    Dropped,
}

/// The level at which an operation was answered, and what became of the rule.
#[derive(Debug, Drop)]
pub struct LoneAnswer {
    pub level: Level,
    pub kept: Kept,
}
