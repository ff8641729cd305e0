//! What a pass remembers of the words of all sites. But for `Count`, these values stand in proofs alone.
use std::collections::LinkedList;

/// What a pass remembers.
pub struct Memo {
    /// How many passes it knows to have been made; 0 in each pass but the first.
    pub made: u64,
    /// How often it settled a site.
    pub calls: u64,
    /// The words of all sites, as it last wrote them.
    pub words: LinkedList<u64>,
}

/// What the rule of the words is told when they are made.
#[derive(Drop)]
pub struct Count {
    /// How many words there are.
    pub words: u64,
}
