//! What is asked at a site.
ghost use Rattle.std.specs.Prelude.{IfOk};

use binder_cache::Probe;
use std::alloc::{AllocError, Global};

/// An operation, whose shape tells the rules that pass on it.
pub trait Operation<R, H>: Probe<R> {
    /// The shape of the operation.
    ghost shape: { Self → H };

    /// A rule is for a shape: it passes on the operations of that shape and on no other.
    ghost tests: { R → H → Type 0 };

    /// A rule for the operation. The one error is want of memory.
    fn bind(&self, alloc: Global) -> Result<R, AllocError>
        ensures { IfOk result (λ rule. tests rule (shape self.now)) };
}
