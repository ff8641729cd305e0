//! The cells and the tokens that show what stands in one.
ghost use Rattle.std.specs.Prelude.{◌≡◌, IfOk, IfErr, IfSome};
ghost use Rattle.rule_cells.specs.Cells.{IsKnownOf, rule_of, index_of};

use std::alloc::{AllocError, Global};
use std::sync::Wait;

/// Shows which rule stands at an index of the cells that it is of, for as long as they last.
#[derive(Drop)]
pub struct Known<R> {
    token: boxcar::Pushed<R>,
}

impl<R> Known<R> {
    /// The index of the rule.
    pub fn index(&self) -> u64
        ensures { result ≡ index_of self.now }
    {
        self.token.index() as u64
    }

    /// A second token of the same rule.
    pub fn again(&self) -> Known<R>
        ensures { result ≡ self.now }
    {
        Known {
            token: self.token.again(),
        }
    }
}

/// Rules that only come and never go, so that threads publish and read them through a `&`.
#[derive(Drop)]
pub struct Cells<R> {
    rules: boxcar::Vec<R>,
}

impl<R: Drop> Cells<R> {
    /// Cells with no rule, or want of memory.
    pub fn new(alloc: Global) -> Result<Cells<R>, AllocError> {
        Ok(Cells {
            rules: boxcar::Vec::new(alloc)?,
        })
    }

    /// Puts a rule in and answers the token that shows it for good. For want of memory the rule comes back.
    pub fn publish(&self, rt: &impl Wait, rule: R) -> Result<Known<R>, (R, AllocError)>
        ensures known { IfOk result (λ known. IsKnownOf self.now known) }
        ensures rule { IfOk result (λ known. rule_of known ≡ rule) }
        ensures back { IfErr result (λ refused. refused.0 ≡ rule) }
    {
        match self.rules.push_shown(rt, rule) {
            Ok(token) => Ok(Known { token }),
            Err(rule) => Err((rule, AllocError)),
        }
    }
}

impl<R> Cells<R> {
    /// The rule of a token. It takes no memory and waits for nobody.
    pub fn show<'a>(&'a self, known: &Known<R>) -> &'a R
        requires { IsKnownOf self.now known.now }
        ensures { result.now ≡ rule_of known.now }
    {
        self.rules.value(&known.token)
    }

    /// A token of the rule at an index. `None` where the cells do not show one now.
    pub fn look(&self, index: u64) -> Option<Known<R>>
        ensures known { IfSome result (λ known. IsKnownOf self.now known) }
        ensures index { IfSome result (λ known. index_of known ≡ index) }
    {
        let token = self.rules.witness(index as usize)?;
        Some(Known { token })
    }

    /// Two tokens with one index show one rule.
    pub fn agrees(&self, one: &Known<R>, other: &Known<R>)
        requires one { IsKnownOf self.now one.now }
        requires other { IsKnownOf self.now other.now }
        requires index { index_of one.now ≡ index_of other.now }
        ensures { rule_of one.now ≡ rule_of other.now }
    {
        self.rules.agrees(&one.token, &other.token);
    }
}
