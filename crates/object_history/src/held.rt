//! An object as the state of a row.
use crate::object_row::ObjectRow;
use crate::tag::Tag;
use dyn_value::Entry;
use turn_rows::Held;

impl<'p> Held for ObjectRow<'p> {
    ghost use Rattle.object_history.specs.Histories.{by_of, mark_of, turns_of, whole_tag_of};
    ghost use Rattle.object_history.specs.Rows.{journal_of};

    type Entry = Entry;

    type Tag = Tag;

    ghost entries = { λ row. journal_of row };

    ghost by = { λ e. by_of e };

    ghost turns = { λ row. turns_of row };

    ghost tag = { λ row. whole_tag_of row };

    ghost mark = { λ row. mark_of row };
}
