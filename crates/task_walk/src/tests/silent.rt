use crate::{Code, World};
use dyn_value::{Outcome, Value};
use std::alloc::{AllocError, Global};
use std::sync::Wait;

/// A world that has no memory for any operation.
#[derive(Drop)]
pub(super) struct Silent<'a> {
    pub(super) code: Code<'a>,
}

impl World for Silent<'_> {
    ghost use Rattle.std.specs.Prelude.{[]};
    ghost use Rattle.task_walk.specs.Plans.{plan_of};

    type Home = ();

    ghost tale = { λ w. record {
      by = record { plan = plan_of w.code; pass = 0; task = 0; limit = 1 };
      entries = λ object. [];
      drawn = [];
      count = 0;
    } };

    ghost answered = { λ w home ops. Unit {0} };

    fn operate<R: Wait>(
        &mut self,
        _rt: &R,
        _alloc: Global,
        _site: u32,
        _operands: &[Value],
    ) -> Result<Outcome, AllocError> {
        Err(AllocError)
    }

    fn draw(&mut self) -> Result<Option<u32>, AllocError> {
        Err(AllocError)
    }
}
