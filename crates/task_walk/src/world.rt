use dyn_value::{Outcome, Value};
use std::alloc::{AllocError, Global};
use std::sync::Wait;

/// What answers the operations of one task.
///
/// `tale` is what it tells: for whom it answers, what it added and drew, and how often. `answered` says that in a home,
/// such as an engine's state, it has answered these operations, in their order; so a caller that knows the home keeps
/// them, and no list of them is held in memory.
pub trait World {
    ghost use Rattle.std.specs.Prelude.{◌≡◌, ◌<◌, ◌≤◌, ◌^◌, ℕ, List, [], ◌∷◌, length, IfOk, OnOk, OnErr, MatchOption};
    ghost use Rattle.task_code.specs.Fits.{IsSite};
    ghost use Rattle.task_walk.specs.Tales.{Tale, Asked, asked, Answers, AreProper, IsProperAnswer, tale_drawn, Onto};
    ghost use Rattle.task_walk.specs.Tales.{Stays};

    /// Where a world answers.
    type Home;

    ghost tale: { Self → Tale };

    ghost answered: { Self → Self.Home → List Asked → Type 0 };

    /// Answers the operation of a site on these operands, the target first. Where memory is refused, nothing is added.
    fn operate<R: Wait>(
        &mut self,
        rt: &R,
        alloc: Global,
        site: u32,
        operands: &[Value],
    ) -> Result<Outcome, AllocError>
        requires few { (tale self.old).count < 2 ^ 60 }
        requires site { IsSite (tale self.old).by.plan site (length operands.now) }
        requires proper { AreProper (tale self.old).by operands.now }
        ensures answers { IfOk result (λ o. Answers site operands.now o (tale self.old) (tale self.new)) }
        ensures answer { IfOk result (IsProperAnswer (tale self.old).by) }
        ensures answered { OnOk result (Onto (answered self.old) (answered self.new) (asked site operands.now ∷ [])) }
        ensures refused { OnErr result (tale self.new ≡ tale self.old) }
        ensures kept { OnErr result (Stays (answered self.old) (answered self.new)) };

    /// Draws the number of a new object; `None` where there may be no object of that number. Where memory is refused,
    /// no number is drawn.
    fn draw(&mut self) -> Result<Option<u32>, AllocError>
        requires few { (tale self.old).count < 2 ^ 60 }
        ensures drawn { IfOk result (λ o. (n : ℕ) × ((tale self.new ≡ tale_drawn n (tale self.old))
            × MatchOption o ((tale self.old).by.limit ≤ n) (λ m. (m ≡ n) × (n < (tale self.old).by.limit)))) }
        ensures kept { Stays (answered self.old) (answered self.new) }
        ensures refused { OnErr result (tale self.new ≡ tale self.old) };
}
