//! What becomes of rules that are to be published.
ghost use Rattle.std.specs.Prelude.{◌≡◌};
ghost use Rattle.known_rules.specs.Publishing.{answer_to};

use binder_cache::Published;
use rule::{Adopted, Rule};
use std::alloc::AllocError;

/// What became of a rule that was to be published.
#[derive(Clone, Copy, Debug, PartialEq, Eq)]
pub enum PublishAnswer {
    /// It has this index, and is known.
    At(u64),
    /// It was dropped: the pass has published 64 of this binder, which is all that it may.
    Past,
    /// It was dropped: memory was refused.
    Refused,
}

/// What became of the rule.
pub(crate) fn answer_of(
    published: &Result<Published<Rule, Adopted>, (Rule, Adopted, AllocError)>,
) -> PublishAnswer
    ensures { result ≡ answer_to published.now }
{
    match published {
        Ok(Published::At(index)) => PublishAnswer::At(*index),
        Ok(Published::Past(..)) => PublishAnswer::Past,
        Err(_) => PublishAnswer::Refused,
    }
}

/// Drops what came back.
pub(crate) fn let_go(_published: Result<Published<Rule, Adopted>, (Rule, Adopted, AllocError)>) {}
