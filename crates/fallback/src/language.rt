//! The twelve fallbacks of the script language.
ghost use Rattle.std.specs.Prelude.{IfOk};
ghost use Rattle.meta_object.specs.Bindings.{IsFallback, IsSoundAnswer, IsSuggestion};
ghost use Rattle.meta_object.specs.Contexts.{KeepsContext};
ghost use Rattle.meta_object.specs.Metas.{CanBind};
ghost use Rattle.fallback.specs.Answers.{IsOwnFirst};

use crate::script::Script;
use meta_object::{BindContext, Bound, Language, MetaObject};
use standard_binders::{Binder, FunTable};
use std::alloc::{AllocError, Global};
use std::sync::Wait;

impl Language for Script {
    ghost functions = { λ script. script.functions.params };

    ghost answers = { λ script. IsOwnFirst script.functions.params };

    fn funs(&self) -> &FunTable {
        &self.functions
    }

    fn fallback_get_member<R: Wait>(
        &self,
        alloc: Global,
        rt: &R,
        cx: &mut BindContext,
        binder: &Binder,
        metas: &[MetaObject],
        suggestion: Option<Bound>,
    ) -> Result<Bound, AllocError>
        requires can { CanBind self.now.functions.params cx.old.table.now cx.old.pass.now binder.now metas.now }
        requires suggestion { IsSuggestion self.now.functions.params cx.old.pass.now binder.now metas.now suggestion }
        ensures bound { IfOk result (λ bound.
            IsSoundAnswer self.now.functions.params cx.new.pass.now binder.now metas.now suggestion bound) }
        ensures answer { IfOk result (IsFallback binder.now metas.now suggestion) }
        ensures answers { IfOk result (
            IsOwnFirst self.now.functions.params cx.new.pass.now binder.now metas.now suggestion) }
        ensures context { KeepsContext cx.old cx.new }
    {
        self.fallback(alloc, rt, cx, binder, metas, suggestion)
    }

    fn fallback_set_member<R: Wait>(
        &self,
        alloc: Global,
        rt: &R,
        cx: &mut BindContext,
        binder: &Binder,
        metas: &[MetaObject],
        suggestion: Option<Bound>,
    ) -> Result<Bound, AllocError>
        requires can { CanBind self.now.functions.params cx.old.table.now cx.old.pass.now binder.now metas.now }
        requires suggestion { IsSuggestion self.now.functions.params cx.old.pass.now binder.now metas.now suggestion }
        ensures bound { IfOk result (λ bound.
            IsSoundAnswer self.now.functions.params cx.new.pass.now binder.now metas.now suggestion bound) }
        ensures answer { IfOk result (IsFallback binder.now metas.now suggestion) }
        ensures answers { IfOk result (
            IsOwnFirst self.now.functions.params cx.new.pass.now binder.now metas.now suggestion) }
        ensures context { KeepsContext cx.old cx.new }
    {
        self.fallback(alloc, rt, cx, binder, metas, suggestion)
    }

    fn fallback_delete_member<R: Wait>(
        &self,
        alloc: Global,
        rt: &R,
        cx: &mut BindContext,
        binder: &Binder,
        metas: &[MetaObject],
        suggestion: Option<Bound>,
    ) -> Result<Bound, AllocError>
        requires can { CanBind self.now.functions.params cx.old.table.now cx.old.pass.now binder.now metas.now }
        requires suggestion { IsSuggestion self.now.functions.params cx.old.pass.now binder.now metas.now suggestion }
        ensures bound { IfOk result (λ bound.
            IsSoundAnswer self.now.functions.params cx.new.pass.now binder.now metas.now suggestion bound) }
        ensures answer { IfOk result (IsFallback binder.now metas.now suggestion) }
        ensures answers { IfOk result (
            IsOwnFirst self.now.functions.params cx.new.pass.now binder.now metas.now suggestion) }
        ensures context { KeepsContext cx.old cx.new }
    {
        self.fallback(alloc, rt, cx, binder, metas, suggestion)
    }

    fn fallback_get_index<R: Wait>(
        &self,
        alloc: Global,
        rt: &R,
        cx: &mut BindContext,
        binder: &Binder,
        metas: &[MetaObject],
        suggestion: Option<Bound>,
    ) -> Result<Bound, AllocError>
        requires can { CanBind self.now.functions.params cx.old.table.now cx.old.pass.now binder.now metas.now }
        requires suggestion { IsSuggestion self.now.functions.params cx.old.pass.now binder.now metas.now suggestion }
        ensures bound { IfOk result (λ bound.
            IsSoundAnswer self.now.functions.params cx.new.pass.now binder.now metas.now suggestion bound) }
        ensures answer { IfOk result (IsFallback binder.now metas.now suggestion) }
        ensures answers { IfOk result (
            IsOwnFirst self.now.functions.params cx.new.pass.now binder.now metas.now suggestion) }
        ensures context { KeepsContext cx.old cx.new }
    {
        self.fallback(alloc, rt, cx, binder, metas, suggestion)
    }

    fn fallback_set_index<R: Wait>(
        &self,
        alloc: Global,
        rt: &R,
        cx: &mut BindContext,
        binder: &Binder,
        metas: &[MetaObject],
        suggestion: Option<Bound>,
    ) -> Result<Bound, AllocError>
        requires can { CanBind self.now.functions.params cx.old.table.now cx.old.pass.now binder.now metas.now }
        requires suggestion { IsSuggestion self.now.functions.params cx.old.pass.now binder.now metas.now suggestion }
        ensures bound { IfOk result (λ bound.
            IsSoundAnswer self.now.functions.params cx.new.pass.now binder.now metas.now suggestion bound) }
        ensures answer { IfOk result (IsFallback binder.now metas.now suggestion) }
        ensures answers { IfOk result (
            IsOwnFirst self.now.functions.params cx.new.pass.now binder.now metas.now suggestion) }
        ensures context { KeepsContext cx.old cx.new }
    {
        self.fallback(alloc, rt, cx, binder, metas, suggestion)
    }

    fn fallback_delete_index<R: Wait>(
        &self,
        alloc: Global,
        rt: &R,
        cx: &mut BindContext,
        binder: &Binder,
        metas: &[MetaObject],
        suggestion: Option<Bound>,
    ) -> Result<Bound, AllocError>
        requires can { CanBind self.now.functions.params cx.old.table.now cx.old.pass.now binder.now metas.now }
        requires suggestion { IsSuggestion self.now.functions.params cx.old.pass.now binder.now metas.now suggestion }
        ensures bound { IfOk result (λ bound.
            IsSoundAnswer self.now.functions.params cx.new.pass.now binder.now metas.now suggestion bound) }
        ensures answer { IfOk result (IsFallback binder.now metas.now suggestion) }
        ensures answers { IfOk result (
            IsOwnFirst self.now.functions.params cx.new.pass.now binder.now metas.now suggestion) }
        ensures context { KeepsContext cx.old cx.new }
    {
        self.fallback(alloc, rt, cx, binder, metas, suggestion)
    }

    fn fallback_invoke<R: Wait>(
        &self,
        alloc: Global,
        rt: &R,
        cx: &mut BindContext,
        binder: &Binder,
        metas: &[MetaObject],
        suggestion: Option<Bound>,
    ) -> Result<Bound, AllocError>
        requires can { CanBind self.now.functions.params cx.old.table.now cx.old.pass.now binder.now metas.now }
        requires suggestion { IsSuggestion self.now.functions.params cx.old.pass.now binder.now metas.now suggestion }
        ensures bound { IfOk result (λ bound.
            IsSoundAnswer self.now.functions.params cx.new.pass.now binder.now metas.now suggestion bound) }
        ensures answer { IfOk result (IsFallback binder.now metas.now suggestion) }
        ensures answers { IfOk result (
            IsOwnFirst self.now.functions.params cx.new.pass.now binder.now metas.now suggestion) }
        ensures context { KeepsContext cx.old cx.new }
    {
        self.fallback(alloc, rt, cx, binder, metas, suggestion)
    }

    fn fallback_invoke_member<R: Wait>(
        &self,
        alloc: Global,
        rt: &R,
        cx: &mut BindContext,
        binder: &Binder,
        metas: &[MetaObject],
        suggestion: Option<Bound>,
    ) -> Result<Bound, AllocError>
        requires can { CanBind self.now.functions.params cx.old.table.now cx.old.pass.now binder.now metas.now }
        requires suggestion { IsSuggestion self.now.functions.params cx.old.pass.now binder.now metas.now suggestion }
        ensures bound { IfOk result (λ bound.
            IsSoundAnswer self.now.functions.params cx.new.pass.now binder.now metas.now suggestion bound) }
        ensures answer { IfOk result (IsFallback binder.now metas.now suggestion) }
        ensures answers { IfOk result (
            IsOwnFirst self.now.functions.params cx.new.pass.now binder.now metas.now suggestion) }
        ensures context { KeepsContext cx.old cx.new }
    {
        self.fallback(alloc, rt, cx, binder, metas, suggestion)
    }

    fn fallback_create_instance<R: Wait>(
        &self,
        alloc: Global,
        rt: &R,
        cx: &mut BindContext,
        binder: &Binder,
        metas: &[MetaObject],
        suggestion: Option<Bound>,
    ) -> Result<Bound, AllocError>
        requires can { CanBind self.now.functions.params cx.old.table.now cx.old.pass.now binder.now metas.now }
        requires suggestion { IsSuggestion self.now.functions.params cx.old.pass.now binder.now metas.now suggestion }
        ensures bound { IfOk result (λ bound.
            IsSoundAnswer self.now.functions.params cx.new.pass.now binder.now metas.now suggestion bound) }
        ensures answer { IfOk result (IsFallback binder.now metas.now suggestion) }
        ensures answers { IfOk result (
            IsOwnFirst self.now.functions.params cx.new.pass.now binder.now metas.now suggestion) }
        ensures context { KeepsContext cx.old cx.new }
    {
        self.fallback(alloc, rt, cx, binder, metas, suggestion)
    }

    fn fallback_convert<R: Wait>(
        &self,
        alloc: Global,
        rt: &R,
        cx: &mut BindContext,
        binder: &Binder,
        metas: &[MetaObject],
        suggestion: Option<Bound>,
    ) -> Result<Bound, AllocError>
        requires can { CanBind self.now.functions.params cx.old.table.now cx.old.pass.now binder.now metas.now }
        requires suggestion { IsSuggestion self.now.functions.params cx.old.pass.now binder.now metas.now suggestion }
        ensures bound { IfOk result (λ bound.
            IsSoundAnswer self.now.functions.params cx.new.pass.now binder.now metas.now suggestion bound) }
        ensures answer { IfOk result (IsFallback binder.now metas.now suggestion) }
        ensures answers { IfOk result (
            IsOwnFirst self.now.functions.params cx.new.pass.now binder.now metas.now suggestion) }
        ensures context { KeepsContext cx.old cx.new }
    {
        self.fallback(alloc, rt, cx, binder, metas, suggestion)
    }

    fn fallback_unary_operation<R: Wait>(
        &self,
        alloc: Global,
        rt: &R,
        cx: &mut BindContext,
        binder: &Binder,
        metas: &[MetaObject],
        suggestion: Option<Bound>,
    ) -> Result<Bound, AllocError>
        requires can { CanBind self.now.functions.params cx.old.table.now cx.old.pass.now binder.now metas.now }
        requires suggestion { IsSuggestion self.now.functions.params cx.old.pass.now binder.now metas.now suggestion }
        ensures bound { IfOk result (λ bound.
            IsSoundAnswer self.now.functions.params cx.new.pass.now binder.now metas.now suggestion bound) }
        ensures answer { IfOk result (IsFallback binder.now metas.now suggestion) }
        ensures answers { IfOk result (
            IsOwnFirst self.now.functions.params cx.new.pass.now binder.now metas.now suggestion) }
        ensures context { KeepsContext cx.old cx.new }
    {
        self.fallback(alloc, rt, cx, binder, metas, suggestion)
    }

    fn fallback_binary_operation<R: Wait>(
        &self,
        alloc: Global,
        rt: &R,
        cx: &mut BindContext,
        binder: &Binder,
        metas: &[MetaObject],
        suggestion: Option<Bound>,
    ) -> Result<Bound, AllocError>
        requires can { CanBind self.now.functions.params cx.old.table.now cx.old.pass.now binder.now metas.now }
        requires suggestion { IsSuggestion self.now.functions.params cx.old.pass.now binder.now metas.now suggestion }
        ensures bound { IfOk result (λ bound.
            IsSoundAnswer self.now.functions.params cx.new.pass.now binder.now metas.now suggestion bound) }
        ensures answer { IfOk result (IsFallback binder.now metas.now suggestion) }
        ensures answers { IfOk result (
            IsOwnFirst self.now.functions.params cx.new.pass.now binder.now metas.now suggestion) }
        ensures context { KeepsContext cx.old cx.new }
    {
        self.fallback(alloc, rt, cx, binder, metas, suggestion)
    }
}
