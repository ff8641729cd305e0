//! Numbers that the passes draw, each once.
ghost use Rattle.std.specs.Prelude.{◌≡◌, ◌+◌, ◌^◌, ◌<◌, [], ◌∷◌, ◌++◌, length};
ghost use Rattle.turn_rows.specs.Passes.{IsPassOf, IsSamePass, log_of, shared_count};

use crate::held::Held;
use crate::plays::Draw;
use crate::rows::{RowPass, Rows, WORDS_A_ROW};

impl<S: Held> Rows<S> {
    /// Draws the next number, from the shared count on. It waits for nobody and takes no memory.
    ///
    /// The number stands at the end of the pass's draws, and what the pass knows of the rows is as before. Where no other pass was made, it is the shared count and the number of draws before it.
    pub fn draw(&self, pass: &mut RowPass<S>) -> u64
        requires own { IsPassOf self.now pass.old }
        requires few { (log_of pass.old).calls < 2 ^ 60 }
        ensures own { IsPassOf self.now pass.new }
        ensures same { IsSamePass pass.old pass.new }
        ensures calls { (log_of pass.new).calls ≡ (log_of pass.old).calls + 1 }
        ensures draws { (log_of pass.new).draws ≡ (log_of pass.old).draws ++ result ∷ [] }
        ensures rows { (log_of pass.new).rows ≡ (log_of pass.old).rows }
        ensures alone { (log_of pass.old).made ≡ 1 → result ≡ shared_count self.now + length (log_of pass.old).draws }
    {
        let words = &self.table.shared;
        words.fetch_add::<Draw>(&mut pass.seat, self.count * WORDS_A_ROW, 1)
    }
}
