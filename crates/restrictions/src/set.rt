//! Sets of restrictions, and their makers.
ghost use Rattle.std.specs.Prelude.{◌≡◌, ◌<◌, ◌≤◌, [], ◌∷◌, ◌++◌, false, length, IsTrue, IfOk};
ghost use Rattle.dyn_value.specs.declared.value.Kind.{Kind};
ghost use Rattle.restrictions.specs.Sets.{IsSet, is_in, is_instance, is_expression, operand_fits};

use crate::restriction::Restriction;
use dyn_value::Kind;
use std::alloc::{AllocError, Global};
use std::marker::Model;

/// At most [`Restrictions::MOST`] distinct restrictions, in the order in which they came.
///
/// Contracts see them as the list of the restrictions.
#[derive(Debug, Drop)]
pub struct Restrictions {
    pub(crate) items: Vec<Restriction>,
}

impl Model for Restrictions {
    ghost use Rattle.std.specs.Prelude.{List};
    ghost use Rattle.restrictions.specs.declared.restriction.Restriction.{Restriction as Item};
    ghost use Rattle.restrictions.specs.Sets.{IsSet};

    ghost Value = { List Item };

    ghost view = { λ r. r.items.items };

    ghost invariant = { λ r. IsSet r.items.items };
}

impl Restrictions {
    /// The most restrictions of a set.
    pub const MOST: usize = 16;

    /// No restriction. It takes no memory.
    pub fn empty(alloc: Global) -> Restrictions
        ensures { result ≡ [] }
    {
        Restrictions {
            items: Vec::new(alloc),
        }
    }

    /// The one restriction that the operand has the kind. The one error is want of memory.
    pub fn kind(alloc: Global, operand: u8, kind: Kind) -> Result<Restrictions, AllocError>
        requires { operand ≤ 16 }
        ensures { IfOk result (λ rs. rs ≡ Restriction.Kind operand kind ∷ []) }
    {
        Restrictions::empty(alloc).and(Restriction::Kind(operand, kind))
    }

    /// The one restriction of an instance: that the operand is a function or a text. The one error is want of memory.
    pub fn instance(alloc: Global, restriction: Restriction) -> Result<Restrictions, AllocError>
        requires instance { IsTrue (is_instance restriction) }
        requires operand { IsTrue (operand_fits restriction) }
        ensures { IfOk result (λ rs. rs ≡ restriction ∷ []) }
    {
        Restrictions::empty(alloc).and(restriction)
    }

    /// The one restriction of an expression: that the operand is a long text, or that the class has a number. The
    /// one error is want of memory.
    pub fn expression(alloc: Global, restriction: Restriction) -> Result<Restrictions, AllocError>
        requires expression { IsTrue (is_expression restriction) }
        requires operand { IsTrue (operand_fits restriction) }
        ensures { IfOk result (λ rs. rs ≡ restriction ∷ []) }
    {
        Restrictions::empty(alloc).and(restriction)
    }

    /// These restrictions, fewer than [`Restrictions::MOST`], and after them one that is not among them. The one error
    /// is want of memory.
    pub fn and(mut self, restriction: Restriction) -> Result<Restrictions, AllocError>
        requires room { length self < 16 }
        requires new { is_in restriction self ≡ false }
        requires operand { IsTrue (operand_fits restriction) }
        ensures { IfOk result (λ rs. rs ≡ self ++ restriction ∷ []) }
    {
        self.items.push(restriction)?;
        Ok(self)
    }

    /// The restrictions, in the order in which they came.
    pub fn items(&self) -> &[Restriction]
        ensures items { result.now ≡ self.now }
        ensures set { IsSet self.now }
    {
        self.items.as_slice()
    }

    /// Whether the restriction is one of them.
    pub(crate) fn has(&self, restriction: &Restriction) -> bool
        ensures { result ≡ is_in restriction.now self.now }
    {
        self.items.iter().any(|mine| mine.same(restriction))
    }
}
