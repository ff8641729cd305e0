//! What a language answers where the objects of the runtime leave it to it.
use crate::bound::Bound;
use crate::context::BindContext;
use crate::meta::MetaObject;
use standard_binders::{Binder, FunTable};
use std::alloc::{AllocError, Global};
use std::sync::Wait;

/// A language: its functions, and for each binder what it answers.
///
/// Each call is handed the metaobjects of the operands, the target first, and what the target suggests. It answers the
/// suggestion where one is there and its own answer would be a fault, and else its own answer. The one error is want of
/// memory; the table may then have a further class that no object has, and the pass may know it.
pub trait Language {
    ghost use Rattle.std.specs.Prelude.{◌≡◌, IsTrue, IfOk, List, Option};
    ghost use Rattle.expando_class.specs.declared.pass.ClassPass.{ClassPass};
    ghost use Rattle.standard_binders.specs.declared.binder.Binder.{Binder};
    ghost use Rattle.standard_binders.specs.Functions.{Functions};
    ghost use Rattle.meta_object.specs.BinderKinds.{is_binary_operation, is_convert, is_create_instance, is_delete_index, is_delete_member, is_get_index, is_get_member, is_invoke, is_invoke_member, is_set_index, is_set_member, is_unary_operation};
    ghost use Rattle.meta_object.specs.declared.bound.Bound.{Bound};
    ghost use Rattle.meta_object.specs.declared.meta.MetaObject.{MetaObject};
    ghost use Rattle.meta_object.specs.Bindings.{IsAbsent, IsFallback, IsSoundAnswer, IsSuggestion, read_name};
    ghost use Rattle.meta_object.specs.Contexts.{KeepsContext};
    ghost use Rattle.meta_object.specs.Metas.{CanBind, target_class};

    // The names of the parameters of each function.
    ghost functions: { Self → Functions };

    // What it answers to the operation of these metaobjects, where this is suggested.
    ghost answers: { Self → ClassPass → Binder → List MetaObject → Option Bound → Bound → Type 0 };

    /// The functions.
    fn funs(&self) -> &FunTable
        ensures { result.now.params ≡ functions self.now };

    /// The answer to `GetMember`.
    fn fallback_get_member<R: Wait>(
        &self,
        alloc: Global,
        rt: &R,
        cx: &mut BindContext,
        binder: &Binder,
        metas: &[MetaObject],
        suggestion: Option<Bound>,
    ) -> Result<Bound, AllocError>
        requires binder { IsTrue (is_get_member binder.now) }
        requires can { CanBind (functions self.now) cx.old.table.now cx.old.pass.now binder.now metas.now }
        requires suggestion { IsSuggestion (functions self.now) cx.old.pass.now binder.now metas.now suggestion }
        requires absent { IsAbsent (read_name binder.now) (target_class metas.now) suggestion }
        ensures bound { IfOk result (λ bound.
            IsSoundAnswer (functions self.now) cx.new.pass.now binder.now metas.now suggestion bound) }
        ensures answer { IfOk result (IsFallback binder.now metas.now suggestion) }
        ensures answers { IfOk result (answers self.now cx.new.pass.now binder.now metas.now suggestion) }
        ensures context { KeepsContext cx.old cx.new };

    /// The answer to `SetMember`.
    fn fallback_set_member<R: Wait>(
        &self,
        alloc: Global,
        rt: &R,
        cx: &mut BindContext,
        binder: &Binder,
        metas: &[MetaObject],
        suggestion: Option<Bound>,
    ) -> Result<Bound, AllocError>
        requires binder { IsTrue (is_set_member binder.now) }
        requires can { CanBind (functions self.now) cx.old.table.now cx.old.pass.now binder.now metas.now }
        requires suggestion { IsSuggestion (functions self.now) cx.old.pass.now binder.now metas.now suggestion }
        requires absent { IsAbsent (read_name binder.now) (target_class metas.now) suggestion }
        ensures bound { IfOk result (λ bound.
            IsSoundAnswer (functions self.now) cx.new.pass.now binder.now metas.now suggestion bound) }
        ensures answer { IfOk result (IsFallback binder.now metas.now suggestion) }
        ensures answers { IfOk result (answers self.now cx.new.pass.now binder.now metas.now suggestion) }
        ensures context { KeepsContext cx.old cx.new };

    /// The answer to `DeleteMember`.
    fn fallback_delete_member<R: Wait>(
        &self,
        alloc: Global,
        rt: &R,
        cx: &mut BindContext,
        binder: &Binder,
        metas: &[MetaObject],
        suggestion: Option<Bound>,
    ) -> Result<Bound, AllocError>
        requires binder { IsTrue (is_delete_member binder.now) }
        requires can { CanBind (functions self.now) cx.old.table.now cx.old.pass.now binder.now metas.now }
        requires suggestion { IsSuggestion (functions self.now) cx.old.pass.now binder.now metas.now suggestion }
        requires absent { IsAbsent (read_name binder.now) (target_class metas.now) suggestion }
        ensures bound { IfOk result (λ bound.
            IsSoundAnswer (functions self.now) cx.new.pass.now binder.now metas.now suggestion bound) }
        ensures answer { IfOk result (IsFallback binder.now metas.now suggestion) }
        ensures answers { IfOk result (answers self.now cx.new.pass.now binder.now metas.now suggestion) }
        ensures context { KeepsContext cx.old cx.new };

    /// The answer to `GetIndex`.
    fn fallback_get_index<R: Wait>(
        &self,
        alloc: Global,
        rt: &R,
        cx: &mut BindContext,
        binder: &Binder,
        metas: &[MetaObject],
        suggestion: Option<Bound>,
    ) -> Result<Bound, AllocError>
        requires binder { IsTrue (is_get_index binder.now) }
        requires can { CanBind (functions self.now) cx.old.table.now cx.old.pass.now binder.now metas.now }
        requires suggestion { IsSuggestion (functions self.now) cx.old.pass.now binder.now metas.now suggestion }
        ensures bound { IfOk result (λ bound.
            IsSoundAnswer (functions self.now) cx.new.pass.now binder.now metas.now suggestion bound) }
        ensures answer { IfOk result (IsFallback binder.now metas.now suggestion) }
        ensures answers { IfOk result (answers self.now cx.new.pass.now binder.now metas.now suggestion) }
        ensures context { KeepsContext cx.old cx.new };

    /// The answer to `SetIndex`.
    fn fallback_set_index<R: Wait>(
        &self,
        alloc: Global,
        rt: &R,
        cx: &mut BindContext,
        binder: &Binder,
        metas: &[MetaObject],
        suggestion: Option<Bound>,
    ) -> Result<Bound, AllocError>
        requires binder { IsTrue (is_set_index binder.now) }
        requires can { CanBind (functions self.now) cx.old.table.now cx.old.pass.now binder.now metas.now }
        requires suggestion { IsSuggestion (functions self.now) cx.old.pass.now binder.now metas.now suggestion }
        ensures bound { IfOk result (λ bound.
            IsSoundAnswer (functions self.now) cx.new.pass.now binder.now metas.now suggestion bound) }
        ensures answer { IfOk result (IsFallback binder.now metas.now suggestion) }
        ensures answers { IfOk result (answers self.now cx.new.pass.now binder.now metas.now suggestion) }
        ensures context { KeepsContext cx.old cx.new };

    /// The answer to `DeleteIndex`.
    fn fallback_delete_index<R: Wait>(
        &self,
        alloc: Global,
        rt: &R,
        cx: &mut BindContext,
        binder: &Binder,
        metas: &[MetaObject],
        suggestion: Option<Bound>,
    ) -> Result<Bound, AllocError>
        requires binder { IsTrue (is_delete_index binder.now) }
        requires can { CanBind (functions self.now) cx.old.table.now cx.old.pass.now binder.now metas.now }
        requires suggestion { IsSuggestion (functions self.now) cx.old.pass.now binder.now metas.now suggestion }
        ensures bound { IfOk result (λ bound.
            IsSoundAnswer (functions self.now) cx.new.pass.now binder.now metas.now suggestion bound) }
        ensures answer { IfOk result (IsFallback binder.now metas.now suggestion) }
        ensures answers { IfOk result (answers self.now cx.new.pass.now binder.now metas.now suggestion) }
        ensures context { KeepsContext cx.old cx.new };

    /// The answer to `Invoke`.
    fn fallback_invoke<R: Wait>(
        &self,
        alloc: Global,
        rt: &R,
        cx: &mut BindContext,
        binder: &Binder,
        metas: &[MetaObject],
        suggestion: Option<Bound>,
    ) -> Result<Bound, AllocError>
        requires binder { IsTrue (is_invoke binder.now) }
        requires can { CanBind (functions self.now) cx.old.table.now cx.old.pass.now binder.now metas.now }
        requires suggestion { IsSuggestion (functions self.now) cx.old.pass.now binder.now metas.now suggestion }
        ensures bound { IfOk result (λ bound.
            IsSoundAnswer (functions self.now) cx.new.pass.now binder.now metas.now suggestion bound) }
        ensures answer { IfOk result (IsFallback binder.now metas.now suggestion) }
        ensures answers { IfOk result (answers self.now cx.new.pass.now binder.now metas.now suggestion) }
        ensures context { KeepsContext cx.old cx.new };

    /// The answer to `InvokeMember`.
    fn fallback_invoke_member<R: Wait>(
        &self,
        alloc: Global,
        rt: &R,
        cx: &mut BindContext,
        binder: &Binder,
        metas: &[MetaObject],
        suggestion: Option<Bound>,
    ) -> Result<Bound, AllocError>
        requires binder { IsTrue (is_invoke_member binder.now) }
        requires can { CanBind (functions self.now) cx.old.table.now cx.old.pass.now binder.now metas.now }
        requires suggestion { IsSuggestion (functions self.now) cx.old.pass.now binder.now metas.now suggestion }
        requires absent { IsAbsent (read_name binder.now) (target_class metas.now) suggestion }
        ensures bound { IfOk result (λ bound.
            IsSoundAnswer (functions self.now) cx.new.pass.now binder.now metas.now suggestion bound) }
        ensures answer { IfOk result (IsFallback binder.now metas.now suggestion) }
        ensures answers { IfOk result (answers self.now cx.new.pass.now binder.now metas.now suggestion) }
        ensures context { KeepsContext cx.old cx.new };

    /// The answer to `CreateInstance`.
    fn fallback_create_instance<R: Wait>(
        &self,
        alloc: Global,
        rt: &R,
        cx: &mut BindContext,
        binder: &Binder,
        metas: &[MetaObject],
        suggestion: Option<Bound>,
    ) -> Result<Bound, AllocError>
        requires binder { IsTrue (is_create_instance binder.now) }
        requires can { CanBind (functions self.now) cx.old.table.now cx.old.pass.now binder.now metas.now }
        requires suggestion { IsSuggestion (functions self.now) cx.old.pass.now binder.now metas.now suggestion }
        ensures bound { IfOk result (λ bound.
            IsSoundAnswer (functions self.now) cx.new.pass.now binder.now metas.now suggestion bound) }
        ensures answer { IfOk result (IsFallback binder.now metas.now suggestion) }
        ensures answers { IfOk result (answers self.now cx.new.pass.now binder.now metas.now suggestion) }
        ensures context { KeepsContext cx.old cx.new };

    /// The answer to `Convert`.
    fn fallback_convert<R: Wait>(
        &self,
        alloc: Global,
        rt: &R,
        cx: &mut BindContext,
        binder: &Binder,
        metas: &[MetaObject],
        suggestion: Option<Bound>,
    ) -> Result<Bound, AllocError>
        requires binder { IsTrue (is_convert binder.now) }
        requires can { CanBind (functions self.now) cx.old.table.now cx.old.pass.now binder.now metas.now }
        requires suggestion { IsSuggestion (functions self.now) cx.old.pass.now binder.now metas.now suggestion }
        ensures bound { IfOk result (λ bound.
            IsSoundAnswer (functions self.now) cx.new.pass.now binder.now metas.now suggestion bound) }
        ensures answer { IfOk result (IsFallback binder.now metas.now suggestion) }
        ensures answers { IfOk result (answers self.now cx.new.pass.now binder.now metas.now suggestion) }
        ensures context { KeepsContext cx.old cx.new };

    /// The answer to `UnaryOperation`.
    fn fallback_unary_operation<R: Wait>(
        &self,
        alloc: Global,
        rt: &R,
        cx: &mut BindContext,
        binder: &Binder,
        metas: &[MetaObject],
        suggestion: Option<Bound>,
    ) -> Result<Bound, AllocError>
        requires binder { IsTrue (is_unary_operation binder.now) }
        requires can { CanBind (functions self.now) cx.old.table.now cx.old.pass.now binder.now metas.now }
        requires suggestion { IsSuggestion (functions self.now) cx.old.pass.now binder.now metas.now suggestion }
        ensures bound { IfOk result (λ bound.
            IsSoundAnswer (functions self.now) cx.new.pass.now binder.now metas.now suggestion bound) }
        ensures answer { IfOk result (IsFallback binder.now metas.now suggestion) }
        ensures answers { IfOk result (answers self.now cx.new.pass.now binder.now metas.now suggestion) }
        ensures context { KeepsContext cx.old cx.new };

    /// The answer to `BinaryOperation`.
    fn fallback_binary_operation<R: Wait>(
        &self,
        alloc: Global,
        rt: &R,
        cx: &mut BindContext,
        binder: &Binder,
        metas: &[MetaObject],
        suggestion: Option<Bound>,
    ) -> Result<Bound, AllocError>
        requires binder { IsTrue (is_binary_operation binder.now) }
        requires can { CanBind (functions self.now) cx.old.table.now cx.old.pass.now binder.now metas.now }
        requires suggestion { IsSuggestion (functions self.now) cx.old.pass.now binder.now metas.now suggestion }
        ensures bound { IfOk result (λ bound.
            IsSoundAnswer (functions self.now) cx.new.pass.now binder.now metas.now suggestion bound) }
        ensures answer { IfOk result (IsFallback binder.now metas.now suggestion) }
        ensures answers { IfOk result (answers self.now cx.new.pass.now binder.now metas.now suggestion) }
        ensures context { KeepsContext cx.old cx.new };
}
