//! The kinds of step on the words of sites, and what each tells its pass.
ghost use Rattle.call_site.specs.Rule.{loaded, exchanged, stored, drawn, splitter, newcomer, joined, spent};

use crate::memo::Memo;
use atomic_table::{Join, Play, Split};

/// A word is looked at.
pub(crate) struct Load;

impl Play<u64, Memo> for Load {
    ghost then = { loaded };
}

/// A target is exchanged, which counts the call.
pub(crate) struct Exchange;

impl Play<u64, Memo> for Exchange {
    ghost then = { exchanged };
}

/// A ring word is written.
pub(crate) struct Store;

impl Play<u64, Memo> for Store {
    ghost then = { stored };
}

/// A place of a ring is drawn.
pub(crate) struct Draw;

impl Play<u64, Memo> for Draw {
    ghost then = { drawn };
}

/// A pass is made.
pub(crate) struct Cut;

impl Split<Memo> for Cut {
    ghost left = { splitter };

    ghost right = { newcomer };
}

/// A pass is joined.
pub(crate) struct Keep;

impl Join<Memo> for Keep {
    ghost both = { joined };

    ghost spent = { spent };
}
