//! What a user of the cache brings: which rule passes, and which rules of others may be known.
ghost use Rattle.std.specs.Prelude.{◌↔◌, IsTrue, IfSome};

/// A test of rules.
pub trait Probe<R> {
    /// The rules that pass.
    ghost accepts: { Self → R → Type 0 };

    /// Whether a rule passes.
    fn passes(&self, rule: &R) -> bool
        ensures { IsTrue result ↔ accepts self.now rule.now };
}

/// Decides on the rules of other passes.
pub trait Adopt<R, A> {
    /// The notes that a rule may be given.
    ghost admits: { Self → R → A → Type 0 };

    /// A note for a rule that may be known from now on, or `None` where it is refused.
    fn adopt(&mut self, rule: &R) -> Option<A>
        ensures admitted { IfSome result (λ note. admits self.old rule.now note) }
        ensures same { (other : R) (note : A) →
            admits self.new other note ↔ admits self.old other note };
}
