//! Rules as objects see them.
use crate::rule::Rule;
use expr_tree::Body;
use object_history::Sound;
use standard_binders::Binder;

impl Sound for Rule {
    ghost use Rattle.rule.specs.Fitting.{Fits, does_step};
    ghost use Rattle.rule.specs.Rules as rules;

    ghost binder_of = { λ r. rules.binder_of r };

    ghost body_of = { λ r. rules.body_of r };

    ghost fits = { λ r operands s more. Fits r operands s more };

    fn binder(&self) -> &Binder {
        Rule::binder(self)
    }

    fn body(&self) -> &Body {
        Rule::body(self)
    }

    ghost sound = { does_step };
}
