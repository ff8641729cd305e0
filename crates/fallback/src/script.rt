//! The script language.
ghost use Rattle.std.specs.Prelude.{◌≡◌, ◌&&◌, ◌∷◌, [], IfOk, IsTrue, is_some, not};
ghost use Rattle.std.specs.Option.{option_copied};
ghost use Rattle.expr_tree.specs.Trees.{root};
ghost use Rattle.meta_object.specs.Bindings.{IsFallback, IsSoundAnswer, IsSuggestion};
ghost use Rattle.meta_object.specs.Contexts.{KeepsContext};
ghost use Rattle.meta_object.specs.Metas.{CanBind};
ghost use Rattle.rule_model.specs.MemberAnswers as answers;
ghost use Rattle.fallback.specs.Answers as spec;
ghost use Rattle.fallback.specs.Answers.{IsOwnFirst, answer_of};

use crate::operand::object_class;
use crate::own::own_bound;
use expr_tree::Node;
use meta_object::{BindContext, Bound, MetaObject};
use standard_binders::{Binder, FunTable};
use std::alloc::{AllocError, Global};
use std::sync::Wait;

/// The language of scripts, over the functions of one.
///
/// It answers each operation as its table says, and an operation on a member of an object as that member stands. What
/// an object suggests takes the place of a fault of its own, and of nothing else.
#[derive(Debug, Drop)]
pub struct Script {
    pub functions: FunTable,
}

impl Script {
    /// The language over these functions. It takes no memory.
    pub fn make(functions: FunTable) -> Script
        ensures { result.functions ≡ functions }
    {
        Script { functions }
    }

    /// The answer to an operation. The one error is want of memory; the table may then have a further class that no
    /// object has, and the pass may know it.
    pub(crate) fn fallback<R: Wait>(
        &self,
        alloc: Global,
        rt: &R,
        cx: &mut BindContext,
        binder: &Binder,
        metas: &[MetaObject],
        suggestion: Option<Bound>,
    ) -> Result<Bound, AllocError>
        requires can { CanBind self.now.functions.params cx.old.table.now cx.old.pass.now binder.now metas.now }
        requires suggestion { IsSuggestion self.now.functions.params cx.old.pass.now binder.now metas.now suggestion }
        ensures bound { IfOk result (λ bound.
            IsSoundAnswer self.now.functions.params cx.new.pass.now binder.now metas.now suggestion bound) }
        ensures answer { IfOk result (IsFallback binder.now metas.now suggestion) }
        ensures answers { IfOk result (
            IsOwnFirst self.now.functions.params cx.new.pass.now binder.now metas.now suggestion) }
        ensures context { KeepsContext cx.old cx.new }
    {
        match suggestion {
            Some(suggested) => {
                // Nothing is suggested of such a member that the language would not answer by NoMember.
                if is_named(binder, metas) {
                    return Ok(suggested);
                }
                let own = own_bound(alloc, rt, &self.functions, cx, binder, metas)?;
                Ok(answer(own, suggested))
            }
            None => own_bound(alloc, rt, &self.functions, cx, binder, metas),
        }
    }
}

/// Whether an operation is on the member of an object that its binder names.
fn is_named(binder: &Binder, metas: &[MetaObject]) -> bool
    ensures { result ≡ spec.is_named binder.now metas.now }
{
    object_class(binder, metas).is_some() && !is_by_key(binder)
}

fn is_by_key(binder: &Binder) -> bool
    ensures { result ≡ answers.is_by_key binder.now }
{
    matches!(
        binder,
        Binder::GetIndex | Binder::SetIndex | Binder::DeleteIndex
    )
}

/// What is suggested in the place of a fault, and else the language's own bound.
pub(crate) fn answer(own: Bound, suggested: Bound) -> Bound
    ensures { result ≡ answer_of own (Some suggested) }
{
    if throws(own.body.root()) {
        suggested
    } else {
        own
    }
}

fn throws(node: &Node) -> bool
    ensures { result ≡ spec.throws node.now }
{
    matches!(node, Node::Throw(_))
}
