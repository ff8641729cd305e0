//! What all passes of a run know, together.
ghost use Rattle.std.specs.Prelude.{◌≡◌, ◌≤◌, ◌<◌, ◌*◌, ◌^◌, ◌+◌, [], length, map, vec_capacity, All};
ghost use Rattle.turn_rows.specs.Passes.{IsPassOf, logs_of};
ghost use Rattle.dlr_engine.specs.Gatherings.{IsApart};
ghost use Rattle.dlr_engine.specs.Levels.{all_levels, total};
ghost use Rattle.dlr_engine.specs.Passes.{drawn_of, levels_of, log_in};

use crate::answer::Levels;
use crate::pass::{Drawn, Pass};
use object_history::ObjectRow;
use sqlite_items::Items;
use turn_rows::{RowPass, Rows};

/// What passes know of the rows, what each of them drew, and what they counted together.
pub(crate) struct Gathered<'p> {
    pub(crate) rows: RowPass<ObjectRow<'p>>,
    pub(crate) drawn: Vec<Items<Drawn>>,
    pub(crate) levels: Levels,
}

impl<'p> Gathered<'p> {
    ghost use Rattle.std.specs.Prelude.{◌∷◌, ◌++◌};
    ghost use Rattle.dlr_engine.specs.Levels.{added};

    /// What one pass knows, drew and counted, in this room.
    fn of(pass: Pass<'p>, mut drawn: Vec<Items<Drawn>>) -> Gathered<'p>
        requires empty { drawn.items ≡ [] }
        requires room { 0 < vec_capacity drawn }
        ensures rows { result.rows ≡ pass.entry.rows }
        ensures drawn { result.drawn.items ≡ drawn_of pass.entry ∷ [] }
        ensures room { vec_capacity result.drawn ≡ vec_capacity drawn }
        ensures levels { result.levels ≡ levels_of pass.entry }
        ensures total { total result.levels ≤ 2 ^ 60 }
    {
        let Pass {
            rows,
            mind: _,
            known: _,
            classes: _,
            drawn: numbers,
            levels,
            calls: _,
            dropped: _,
            answered: _,
        } = pass;
        drawn.push_reserved(Items::from_vec(numbers));
        Gathered {
            rows,
            drawn,
            levels,
        }
    }

    /// That of one pass more.
    fn add(&mut self, rows: &Rows<ObjectRow<'p>>, pass: Pass<'p>)
        requires own { IsPassOf rows.now self.old.rows }
        requires apart { IsApart rows.now pass }
        requires room { length self.old.drawn.items < vec_capacity self.old.drawn }
        requires few { total self.old.levels ≤ 7 * 2 ^ 60 }
        ensures own { IsPassOf rows.now self.new.rows }
        ensures logs { logs_of self.new.rows ≡ logs_of self.old.rows ++ log_in pass.entry ∷ [] }
        ensures drawn { self.new.drawn.items ≡ self.old.drawn.items ++ drawn_of pass.entry ∷ [] }
        ensures room { vec_capacity self.new.drawn ≡ vec_capacity self.old.drawn }
        ensures levels { self.new.levels ≡ added self.old.levels (levels_of pass.entry) }
        ensures total { total self.new.levels ≤ total self.old.levels + 2 ^ 60 }
    {
        let Pass {
            rows: other,
            mind: _,
            known: _,
            classes: _,
            drawn: numbers,
            levels,
            calls: _,
            dropped: _,
            answered: _,
        } = pass;
        rows.join(&mut self.rows, other);
        self.drawn.push_reserved(Items::from_vec(numbers));
        self.levels.add(&levels);
    }

    /// That of these passes more, in their order.
    fn add_all(&mut self, rows: &Rows<ObjectRow<'p>>, passes: Vec<Pass<'p>>)
        requires own { IsPassOf rows.now self.old.rows }
        requires apart { All (IsApart rows.now) passes.items }
        requires room { length self.old.drawn.items + length passes.items ≤ vec_capacity self.old.drawn }
        requires few { length passes.items ≤ 7 }
        requires total { total self.old.levels ≤ 2 ^ 60 }
        ensures own { IsPassOf rows.now self.new.rows }
        ensures logs { logs_of self.new.rows ≡ logs_of self.old.rows ++ map log_in passes.entry.items }
        ensures drawn { self.new.drawn.items ≡ self.old.drawn.items ++ map drawn_of passes.entry.items }
        ensures levels { self.new.levels ≡ added self.old.levels (all_levels (map levels_of passes.entry.items)) }
    {
        for pass in passes {
            self.add(rows, pass);
        }
    }
}

/// What these passes know, drew and counted, in their order. It takes no memory.
pub(crate) fn gather<'p>(
    rows: &Rows<ObjectRow<'p>>,
    mut passes: Vec<Pass<'p>>,
    drawn: Vec<Items<Drawn>>,
) -> Gathered<'p>
    requires some { 0 < length passes.items }
    requires few { length passes.items ≤ 8 }
    requires apart { All (IsApart rows.now) passes.items }
    requires empty { drawn.items ≡ [] }
    requires room { length passes.items ≤ vec_capacity drawn }
    ensures own { IsPassOf rows.now result.rows }
    ensures logs { logs_of result.rows ≡ map log_in passes.entry.items }
    ensures drawn { result.drawn.items ≡ map drawn_of passes.entry.items }
    ensures levels { result.levels ≡ all_levels (map levels_of passes.entry.items) }
{
    let mut gathered = Gathered::of(passes.remove(0), drawn);
    gathered.add_all(rows, passes);
    gathered
}
