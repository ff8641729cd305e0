//! Bodies that touch no member of an object.
ghost use Rattle.std.specs.Prelude.{◌≡◌, [], IsTrue, IfOk};
ghost use Rattle.expr_tree.specs.Meanings.{State, answer_in, is_plain, IsThere};
ghost use Rattle.expr_tree.specs.Trees.{root};

use crate::answer::answer;
use dyn_value::{Outcome, Value};
use expr_tree::Body;
use std::alloc::{AllocError, Global};

/// What the body answers of these operands, whatever the state of an object. The one error is want of memory.
pub fn eval_plain(alloc: Global, body: &Body, operands: &[Value]) -> Result<Outcome, AllocError>
    // Its root names only operands that are there.
    requires there { IsThere operands.now [] (root body.now) }
    requires plain { IsTrue (is_plain (root body.now)) }
    ensures { IfOk result (λ o. (s : State) → o ≡ answer_in operands.now s (root body.now)) }
{
    answer(alloc, body.root(), operands)
}
