//! The kinds of step on the rows' words, and what each tells its pass.
ghost use Rattle.turn_rows.specs.Rule.{meaning};
ghost use Rattle.turn_rows.specs.Plays.{ticketed, looked, took, gave, advanced, drawn, fresh, splitter, newcomer, joined, spent};

use crate::held::Held;
use crate::view::View;
use atomic_table::{Join, Play, Split};

/// A ticket is drawn.
pub(crate) struct Ticket;

impl<S> Play<S, View<S>> for Ticket {
    ghost then = { ticketed };
}

/// The number that is served is looked at.
pub(crate) struct Look;

impl<S> Play<S, View<S>> for Look {
    ghost then = { looked };
}

/// The slot goes out.
pub(crate) struct Take;

impl<S: Held> Play<S, View<S>> for Take {
    ghost then = { took (meaning S.entries S.by S.turns S.tag S.mark) };
}

/// The slot comes home.
pub(crate) struct Give;

impl<S> Play<S, View<S>> for Give {
    ghost then = { gave };
}

/// The next ticket is served.
pub(crate) struct Advance;

impl<S> Play<S, View<S>> for Advance {
    ghost then = { advanced };
}

/// A number is drawn.
pub(crate) struct Draw;

impl<S> Play<S, View<S>> for Draw {
    ghost then = { drawn };
}

/// The states at the start are recalled.
pub(crate) struct Recall;

impl<S: Held> Play<S, View<S>> for Recall {
    ghost then = { fresh (meaning S.entries S.by S.turns S.tag S.mark) };
}

/// A pass is made.
pub(crate) struct Cut;

impl<S> Split<View<S>> for Cut {
    ghost left = { splitter };

    ghost right = { newcomer };
}

/// A pass is joined.
pub(crate) struct Keep;

impl<S> Join<View<S>> for Keep {
    ghost both = { joined };

    ghost spent = { spent };
}
