//! The bindings of the twelve binders.
ghost use Rattle.std.specs.Prelude.{IfOk, IsTrue};
ghost use Rattle.meta_object.specs.BinderKinds.{is_binary_operation, is_convert, is_create_instance, is_delete_index, is_delete_member, is_get_index, is_get_member, is_invoke, is_invoke_member, is_set_index, is_set_member, is_unary_operation};
ghost use Rattle.meta_object.specs.Bindings.{HasTests, IsAnswered, IsBinding};
ghost use Rattle.meta_object.specs.Contexts.{KeepsContext};
ghost use Rattle.meta_object.specs.Metas.{CanBind};

use crate::bound::Bound;
use crate::context::BindContext;
use crate::language::Language;
use crate::meta::MetaObject;
use crate::suggestion::own_bound;
use standard_binders::Binder;
use std::alloc::{AllocError, Global};
use std::sync::Wait;

// Each binds the operation of a binder of its kind on the operands of these metaobjects, the target first. The one
// error is want of memory; the table may then have a further class that no object has, and the pass may know it.
impl MetaObject {
    /// Binds `GetMember`. An object of the runtime hands the language its own answer, save where its class has no
    /// member of the name.
    pub fn bind_get_member<L: Language, R: Wait>(
        alloc: Global,
        rt: &R,
        lang: &L,
        cx: &mut BindContext,
        binder: &Binder,
        metas: &[MetaObject],
    ) -> Result<Bound, AllocError>
        requires binder { IsTrue (is_get_member binder.now) }
        requires can { CanBind (L.functions lang.now) cx.old.table.now cx.old.pass.now binder.now metas.now }
        ensures bound { IfOk result (IsBinding (L.functions lang.now) cx.new.pass.now binder.now metas.now) }
        ensures tests { IfOk result (HasTests binder.now metas.now) }
        ensures answer { IfOk result (λ bound.
            IsAnswered (L.answers lang.now) (L.functions lang.now) cx.new.pass.now binder.now metas.now bound) }
        ensures context { KeepsContext cx.old cx.new }
    {
        let own = own_bound(alloc, rt, cx, binder, metas)?;
        let bound = lang.fallback_get_member(alloc, rt, cx, binder, metas, own)?;
        Ok(bound)
    }

    /// Binds `SetMember`. An object of the runtime hands the language its own answer.
    pub fn bind_set_member<L: Language, R: Wait>(
        alloc: Global,
        rt: &R,
        lang: &L,
        cx: &mut BindContext,
        binder: &Binder,
        metas: &[MetaObject],
    ) -> Result<Bound, AllocError>
        requires binder { IsTrue (is_set_member binder.now) }
        requires can { CanBind (L.functions lang.now) cx.old.table.now cx.old.pass.now binder.now metas.now }
        ensures bound { IfOk result (IsBinding (L.functions lang.now) cx.new.pass.now binder.now metas.now) }
        ensures tests { IfOk result (HasTests binder.now metas.now) }
        ensures answer { IfOk result (λ bound.
            IsAnswered (L.answers lang.now) (L.functions lang.now) cx.new.pass.now binder.now metas.now bound) }
        ensures context { KeepsContext cx.old cx.new }
    {
        let own = own_bound(alloc, rt, cx, binder, metas)?;
        let bound = lang.fallback_set_member(alloc, rt, cx, binder, metas, own)?;
        Ok(bound)
    }

    /// Binds `DeleteMember`. An object of the runtime hands the language its own answer, save where its class has no
    /// member of the name.
    pub fn bind_delete_member<L: Language, R: Wait>(
        alloc: Global,
        rt: &R,
        lang: &L,
        cx: &mut BindContext,
        binder: &Binder,
        metas: &[MetaObject],
    ) -> Result<Bound, AllocError>
        requires binder { IsTrue (is_delete_member binder.now) }
        requires can { CanBind (L.functions lang.now) cx.old.table.now cx.old.pass.now binder.now metas.now }
        ensures bound { IfOk result (IsBinding (L.functions lang.now) cx.new.pass.now binder.now metas.now) }
        ensures tests { IfOk result (HasTests binder.now metas.now) }
        ensures answer { IfOk result (λ bound.
            IsAnswered (L.answers lang.now) (L.functions lang.now) cx.new.pass.now binder.now metas.now bound) }
        ensures context { KeepsContext cx.old cx.new }
    {
        let own = own_bound(alloc, rt, cx, binder, metas)?;
        let bound = lang.fallback_delete_member(alloc, rt, cx, binder, metas, own)?;
        Ok(bound)
    }

    /// Binds `GetIndex`, which is left to the language.
    pub fn bind_get_index<L: Language, R: Wait>(
        alloc: Global,
        rt: &R,
        lang: &L,
        cx: &mut BindContext,
        binder: &Binder,
        metas: &[MetaObject],
    ) -> Result<Bound, AllocError>
        requires binder { IsTrue (is_get_index binder.now) }
        requires can { CanBind (L.functions lang.now) cx.old.table.now cx.old.pass.now binder.now metas.now }
        ensures bound { IfOk result (IsBinding (L.functions lang.now) cx.new.pass.now binder.now metas.now) }
        ensures tests { IfOk result (HasTests binder.now metas.now) }
        ensures answer { IfOk result (λ bound.
            IsAnswered (L.answers lang.now) (L.functions lang.now) cx.new.pass.now binder.now metas.now bound) }
        ensures context { KeepsContext cx.old cx.new }
    {
        let bound = lang.fallback_get_index(alloc, rt, cx, binder, metas, None)?;
        Ok(bound)
    }

    /// Binds `SetIndex`, which is left to the language.
    pub fn bind_set_index<L: Language, R: Wait>(
        alloc: Global,
        rt: &R,
        lang: &L,
        cx: &mut BindContext,
        binder: &Binder,
        metas: &[MetaObject],
    ) -> Result<Bound, AllocError>
        requires binder { IsTrue (is_set_index binder.now) }
        requires can { CanBind (L.functions lang.now) cx.old.table.now cx.old.pass.now binder.now metas.now }
        ensures bound { IfOk result (IsBinding (L.functions lang.now) cx.new.pass.now binder.now metas.now) }
        ensures tests { IfOk result (HasTests binder.now metas.now) }
        ensures answer { IfOk result (λ bound.
            IsAnswered (L.answers lang.now) (L.functions lang.now) cx.new.pass.now binder.now metas.now bound) }
        ensures context { KeepsContext cx.old cx.new }
    {
        let bound = lang.fallback_set_index(alloc, rt, cx, binder, metas, None)?;
        Ok(bound)
    }

    /// Binds `DeleteIndex`, which is left to the language.
    pub fn bind_delete_index<L: Language, R: Wait>(
        alloc: Global,
        rt: &R,
        lang: &L,
        cx: &mut BindContext,
        binder: &Binder,
        metas: &[MetaObject],
    ) -> Result<Bound, AllocError>
        requires binder { IsTrue (is_delete_index binder.now) }
        requires can { CanBind (L.functions lang.now) cx.old.table.now cx.old.pass.now binder.now metas.now }
        ensures bound { IfOk result (IsBinding (L.functions lang.now) cx.new.pass.now binder.now metas.now) }
        ensures tests { IfOk result (HasTests binder.now metas.now) }
        ensures answer { IfOk result (λ bound.
            IsAnswered (L.answers lang.now) (L.functions lang.now) cx.new.pass.now binder.now metas.now bound) }
        ensures context { KeepsContext cx.old cx.new }
    {
        let bound = lang.fallback_delete_index(alloc, rt, cx, binder, metas, None)?;
        Ok(bound)
    }

    /// Binds `Invoke`, which is left to the language.
    pub fn bind_invoke<L: Language, R: Wait>(
        alloc: Global,
        rt: &R,
        lang: &L,
        cx: &mut BindContext,
        binder: &Binder,
        metas: &[MetaObject],
    ) -> Result<Bound, AllocError>
        requires binder { IsTrue (is_invoke binder.now) }
        requires can { CanBind (L.functions lang.now) cx.old.table.now cx.old.pass.now binder.now metas.now }
        ensures bound { IfOk result (IsBinding (L.functions lang.now) cx.new.pass.now binder.now metas.now) }
        ensures tests { IfOk result (HasTests binder.now metas.now) }
        ensures answer { IfOk result (λ bound.
            IsAnswered (L.answers lang.now) (L.functions lang.now) cx.new.pass.now binder.now metas.now bound) }
        ensures context { KeepsContext cx.old cx.new }
    {
        let bound = lang.fallback_invoke(alloc, rt, cx, binder, metas, None)?;
        Ok(bound)
    }

    /// Binds `InvokeMember`. An object of the runtime hands the language its own answer, save where its class has no
    /// member of the name.
    pub fn bind_invoke_member<L: Language, R: Wait>(
        alloc: Global,
        rt: &R,
        lang: &L,
        cx: &mut BindContext,
        binder: &Binder,
        metas: &[MetaObject],
    ) -> Result<Bound, AllocError>
        requires binder { IsTrue (is_invoke_member binder.now) }
        requires can { CanBind (L.functions lang.now) cx.old.table.now cx.old.pass.now binder.now metas.now }
        ensures bound { IfOk result (IsBinding (L.functions lang.now) cx.new.pass.now binder.now metas.now) }
        ensures tests { IfOk result (HasTests binder.now metas.now) }
        ensures answer { IfOk result (λ bound.
            IsAnswered (L.answers lang.now) (L.functions lang.now) cx.new.pass.now binder.now metas.now bound) }
        ensures context { KeepsContext cx.old cx.new }
    {
        let own = own_bound(alloc, rt, cx, binder, metas)?;
        let bound = lang.fallback_invoke_member(alloc, rt, cx, binder, metas, own)?;
        Ok(bound)
    }

    /// Binds `CreateInstance`, which is left to the language.
    pub fn bind_create_instance<L: Language, R: Wait>(
        alloc: Global,
        rt: &R,
        lang: &L,
        cx: &mut BindContext,
        binder: &Binder,
        metas: &[MetaObject],
    ) -> Result<Bound, AllocError>
        requires binder { IsTrue (is_create_instance binder.now) }
        requires can { CanBind (L.functions lang.now) cx.old.table.now cx.old.pass.now binder.now metas.now }
        ensures bound { IfOk result (IsBinding (L.functions lang.now) cx.new.pass.now binder.now metas.now) }
        ensures tests { IfOk result (HasTests binder.now metas.now) }
        ensures answer { IfOk result (λ bound.
            IsAnswered (L.answers lang.now) (L.functions lang.now) cx.new.pass.now binder.now metas.now bound) }
        ensures context { KeepsContext cx.old cx.new }
    {
        let bound = lang.fallback_create_instance(alloc, rt, cx, binder, metas, None)?;
        Ok(bound)
    }

    /// Binds `Convert`, which is left to the language.
    pub fn bind_convert<L: Language, R: Wait>(
        alloc: Global,
        rt: &R,
        lang: &L,
        cx: &mut BindContext,
        binder: &Binder,
        metas: &[MetaObject],
    ) -> Result<Bound, AllocError>
        requires binder { IsTrue (is_convert binder.now) }
        requires can { CanBind (L.functions lang.now) cx.old.table.now cx.old.pass.now binder.now metas.now }
        ensures bound { IfOk result (IsBinding (L.functions lang.now) cx.new.pass.now binder.now metas.now) }
        ensures tests { IfOk result (HasTests binder.now metas.now) }
        ensures answer { IfOk result (λ bound.
            IsAnswered (L.answers lang.now) (L.functions lang.now) cx.new.pass.now binder.now metas.now bound) }
        ensures context { KeepsContext cx.old cx.new }
    {
        let bound = lang.fallback_convert(alloc, rt, cx, binder, metas, None)?;
        Ok(bound)
    }

    /// Binds `UnaryOperation`, which is left to the language.
    pub fn bind_unary_operation<L: Language, R: Wait>(
        alloc: Global,
        rt: &R,
        lang: &L,
        cx: &mut BindContext,
        binder: &Binder,
        metas: &[MetaObject],
    ) -> Result<Bound, AllocError>
        requires binder { IsTrue (is_unary_operation binder.now) }
        requires can { CanBind (L.functions lang.now) cx.old.table.now cx.old.pass.now binder.now metas.now }
        ensures bound { IfOk result (IsBinding (L.functions lang.now) cx.new.pass.now binder.now metas.now) }
        ensures tests { IfOk result (HasTests binder.now metas.now) }
        ensures answer { IfOk result (λ bound.
            IsAnswered (L.answers lang.now) (L.functions lang.now) cx.new.pass.now binder.now metas.now bound) }
        ensures context { KeepsContext cx.old cx.new }
    {
        let bound = lang.fallback_unary_operation(alloc, rt, cx, binder, metas, None)?;
        Ok(bound)
    }

    /// Binds `BinaryOperation`, which is left to the language.
    pub fn bind_binary_operation<L: Language, R: Wait>(
        alloc: Global,
        rt: &R,
        lang: &L,
        cx: &mut BindContext,
        binder: &Binder,
        metas: &[MetaObject],
    ) -> Result<Bound, AllocError>
        requires binder { IsTrue (is_binary_operation binder.now) }
        requires can { CanBind (L.functions lang.now) cx.old.table.now cx.old.pass.now binder.now metas.now }
        ensures bound { IfOk result (IsBinding (L.functions lang.now) cx.new.pass.now binder.now metas.now) }
        ensures tests { IfOk result (HasTests binder.now metas.now) }
        ensures answer { IfOk result (λ bound.
            IsAnswered (L.answers lang.now) (L.functions lang.now) cx.new.pass.now binder.now metas.now bound) }
        ensures context { KeepsContext cx.old cx.new }
    {
        let bound = lang.fallback_binary_operation(alloc, rt, cx, binder, metas, None)?;
        Ok(bound)
    }
}
