//! What is bound for members, and what an object hands to the language; expected texts are worked out by hand.
ghost use Rattle.std.specs.Prelude.{◌≡◌, ◌∷◌, [], ℕ, IfOk, IfSome, IsTrue, None, Some};
ghost use Rattle.dyn_value.specs.declared.value.Value.{Value};
ghost use Rattle.expando_class.specs.Class.{IsClassOf};
ghost use Rattle.expando_class.specs.Pass.{IsPassOf};
ghost use Rattle.meta_object.specs.Metas.{has_key};
ghost use Rattle.meta_object.specs.Operands.{AreMetasOf};

use crate::{BindContext, Bound, Language, MetaObject, member_bound};
use dyn_value::{DynText, Value};
use expando_class::{ClassPass, ClassRef, ClassTable};
use sqlite_items::Items;
use standard_binders::{Binder, CallInfo, FunTable};
use std::alloc::{AllocError, Global};
use std::sync::Wait;
use std::test::Fail;

/// A language without functions that answers what an object suggests, and nothing else.
#[derive(Drop)]
struct Echo {
    functions: FunTable,
}

impl Language for Echo {
    ghost functions = { λ language. language.functions.params };

    ghost answers = { λ language pass binder metas suggestion bound. suggestion ≡ Some bound };

    fn funs(&self) -> &FunTable {
        &self.functions
    }

    fn fallback_get_member<R: Wait>(
        &self,
        alloc: Global,
        rt: &R,
        cx: &mut BindContext,
        binder: &Binder,
        metas: &[MetaObject],
        suggestion: Option<Bound>,
    ) -> Result<Bound, AllocError> {
        let bound = echoed(suggestion)?;
        Ok(bound)
    }

    fn fallback_set_member<R: Wait>(
        &self,
        alloc: Global,
        rt: &R,
        cx: &mut BindContext,
        binder: &Binder,
        metas: &[MetaObject],
        suggestion: Option<Bound>,
    ) -> Result<Bound, AllocError> {
        let bound = echoed(suggestion)?;
        Ok(bound)
    }

    fn fallback_delete_member<R: Wait>(
        &self,
        alloc: Global,
        rt: &R,
        cx: &mut BindContext,
        binder: &Binder,
        metas: &[MetaObject],
        suggestion: Option<Bound>,
    ) -> Result<Bound, AllocError> {
        let bound = echoed(suggestion)?;
        Ok(bound)
    }

    fn fallback_get_index<R: Wait>(
        &self,
        alloc: Global,
        rt: &R,
        cx: &mut BindContext,
        binder: &Binder,
        metas: &[MetaObject],
        suggestion: Option<Bound>,
    ) -> Result<Bound, AllocError> {
        let bound = echoed(suggestion)?;
        Ok(bound)
    }

    fn fallback_set_index<R: Wait>(
        &self,
        alloc: Global,
        rt: &R,
        cx: &mut BindContext,
        binder: &Binder,
        metas: &[MetaObject],
        suggestion: Option<Bound>,
    ) -> Result<Bound, AllocError> {
        let bound = echoed(suggestion)?;
        Ok(bound)
    }

    fn fallback_delete_index<R: Wait>(
        &self,
        alloc: Global,
        rt: &R,
        cx: &mut BindContext,
        binder: &Binder,
        metas: &[MetaObject],
        suggestion: Option<Bound>,
    ) -> Result<Bound, AllocError> {
        let bound = echoed(suggestion)?;
        Ok(bound)
    }

    fn fallback_invoke<R: Wait>(
        &self,
        alloc: Global,
        rt: &R,
        cx: &mut BindContext,
        binder: &Binder,
        metas: &[MetaObject],
        suggestion: Option<Bound>,
    ) -> Result<Bound, AllocError> {
        let bound = echoed(suggestion)?;
        Ok(bound)
    }

    fn fallback_invoke_member<R: Wait>(
        &self,
        alloc: Global,
        rt: &R,
        cx: &mut BindContext,
        binder: &Binder,
        metas: &[MetaObject],
        suggestion: Option<Bound>,
    ) -> Result<Bound, AllocError> {
        let bound = echoed(suggestion)?;
        Ok(bound)
    }

    fn fallback_create_instance<R: Wait>(
        &self,
        alloc: Global,
        rt: &R,
        cx: &mut BindContext,
        binder: &Binder,
        metas: &[MetaObject],
        suggestion: Option<Bound>,
    ) -> Result<Bound, AllocError> {
        let bound = echoed(suggestion)?;
        Ok(bound)
    }

    fn fallback_convert<R: Wait>(
        &self,
        alloc: Global,
        rt: &R,
        cx: &mut BindContext,
        binder: &Binder,
        metas: &[MetaObject],
        suggestion: Option<Bound>,
    ) -> Result<Bound, AllocError> {
        let bound = echoed(suggestion)?;
        Ok(bound)
    }

    fn fallback_unary_operation<R: Wait>(
        &self,
        alloc: Global,
        rt: &R,
        cx: &mut BindContext,
        binder: &Binder,
        metas: &[MetaObject],
        suggestion: Option<Bound>,
    ) -> Result<Bound, AllocError> {
        let bound = echoed(suggestion)?;
        Ok(bound)
    }

    fn fallback_binary_operation<R: Wait>(
        &self,
        alloc: Global,
        rt: &R,
        cx: &mut BindContext,
        binder: &Binder,
        metas: &[MetaObject],
        suggestion: Option<Bound>,
    ) -> Result<Bound, AllocError> {
        let bound = echoed(suggestion)?;
        Ok(bound)
    }
}

/// What is suggested; want of memory where nothing is.
fn echoed(suggestion: Option<Bound>) -> Result<Bound, AllocError>
    ensures { IfOk result (λ bound. suggestion ≡ Some bound) }
{
    match suggestion {
        Some(bound) => Ok(bound),
        None => Err(AllocError),
    }
}

fn text(alloc: Global, characters: &str) -> Result<DynText, Fail> {
    Ok(DynText::from_str(alloc, characters)?.ok_or("too long")?)
}

/// The class with a name more at the end.
fn with_name(
    rt: &impl Wait,
    table: &ClassTable,
    pass: &mut ClassPass,
    class: &ClassRef,
    name: &str,
) -> Result<ClassRef, Fail>
    requires pass { IsPassOf table.now pass.old }
    requires of { IsClassOf table.now class.now }
    ensures pass { IsPassOf table.now pass.new }
    ensures of { IfOk result (IsClassOf table.now) }
{
    if table.place_of(class, name).is_some() || table.size(class) >= 64 || name.len() > 64 {
        return Err(Fail::new("no room"));
    }
    let added = table.add(rt, pass, class, name)?;
    Ok(added)
}

/// The class with the names m0, m1 and so on, so many; its number is their count.
fn class_of(
    rt: &impl Wait,
    alloc: Global,
    table: &ClassTable,
    pass: &mut ClassPass,
    count: u32,
) -> Result<ClassRef, Fail>
    requires { IsPassOf table.now pass.old }
    ensures pass { IsPassOf table.now pass.new }
    ensures of { IfOk result (IsClassOf table.now) }
{
    let mut class = table.root();
    for number in 0..count {
        let name = format!(in alloc; "m{number}")?;
        class = with_name(rt, table, pass, &class, name.as_str())?;
    }
    Ok(class)
}

/// The test and the body of a bound.
fn printed(alloc: Global, bound: &Bound) -> Result<Vec<u8>, Fail> {
    let mut out = Vec::new(alloc);
    bound.restrictions.to_tree(alloc)?.print_to(&mut out)?;
    out.push(b' ')?;
    bound.body.tree().print_to(&mut out)?;
    Ok(out)
}

/// What is bound for the member of a name, of an object with so many members.
fn bound_to(
    rt: &impl Wait,
    alloc: Global,
    count: u32,
    binder: &Binder,
    name: &DynText,
) -> Result<Vec<u8>, Fail> {
    let table = ClassTable::new(alloc)?;
    let mut pass = table.pass(alloc)?;
    let class = class_of(rt, alloc, &table, &mut pass, count)?;
    if name.as_str().len() > 64 {
        return Err(Fail::new("no name"));
    }
    let mut cx = BindContext {
        table: &table,
        pass: &mut pass,
    };
    let bound = member_bound(alloc, rt, &mut cx, binder, &class, name)?;
    printed(alloc, &bound)
}

#[test]
fn bounds_of_members(rt: HostRuntime) -> Result<(), Fail> {
    let alloc = rt.alloc();
    let cases = [
        (
            "get",
            "m0",
            0,
            "(and (kind 0 Obj) (class 0)) (throw NoMember \"m0\")",
        ),
        ("get", "m1", 2, "(and (kind 0 Obj) (class 2)) (read 1)"),
        ("call", "m0", 2, "(and (kind 0 Obj) (class 2)) (read 0)"),
        (
            "call",
            "x",
            2,
            "(and (kind 0 Obj) (class 2)) (throw NoMember \"x\")",
        ),
        ("set", "m0", 1, "(and (kind 0 Obj) (class 1)) (write 0 1)"),
        ("set", "m0", 0, "(and (kind 0 Obj) (class 0)) (append 1 1)"),
        (
            "set",
            "m63",
            63,
            "(and (kind 0 Obj) (class 63)) (append 64 1)",
        ),
        (
            "set",
            "m63",
            64,
            "(and (kind 0 Obj) (class 64)) (write 63 1)",
        ),
        (
            "set",
            "m64",
            64,
            "(and (kind 0 Obj) (class 64)) (throw MembersFull)",
        ),
        (
            "delete",
            "m1",
            2,
            "(and (kind 0 Obj) (class 2)) (remove 1 1)",
        ),
        (
            "delete",
            "m0",
            2,
            "(and (kind 0 Obj) (class 2)) (remove 0 3)",
        ),
        (
            "delete",
            "x",
            1,
            "(and (kind 0 Obj) (class 1)) (throw NoMember \"x\")",
        ),
        (
            "get at",
            "m0",
            1,
            "(and (and (kind 0 Obj) (class 1)) (key 1 \"m0\")) (read 0)",
        ),
        (
            "set at",
            "m1",
            1,
            "(and (and (kind 0 Obj) (class 1)) (key 1 \"m1\")) (append 2 2)",
        ),
        (
            "delete at",
            "m0",
            1,
            "(and (and (kind 0 Obj) (class 1)) (key 1 \"m0\")) (remove 0 0)",
        ),
    ];
    for (kind, name, count, want) in cases {
        let name = text(alloc, name)?;
        let binder = binder(alloc, kind, &name)?;
        assert!(rt;
            bound_to(&rt, alloc, count, &binder, &name)?.as_slice() == want.as_bytes(),
            "{kind}: {want}"
        );
    }
    Ok(())
}

/// The binder of a short kind, of this name.
fn binder(alloc: Global, kind: &str, name: &DynText) -> Result<Binder, Fail> {
    let name = name.copy()?;
    let ignore_case = false;
    Ok(match kind {
        "get" => Binder::GetMember { name, ignore_case },
        "set" => Binder::SetMember { name, ignore_case },
        "delete" => Binder::DeleteMember { name, ignore_case },
        "get at" => Binder::GetIndex,
        "set at" => Binder::SetIndex,
        "delete at" => Binder::DeleteIndex,
        _ => Binder::InvokeMember {
            name,
            ignore_case,
            info: CallInfo::make(0, Vec::new(alloc))
                .ok()
                .ok_or("no arguments")?,
        },
    })
}

/// The metaobject of an object of this class.
fn metas_of(alloc: Global, class: &ClassRef) -> Result<Vec<MetaObject>, Fail>
    ensures { IfOk result (λ metas. AreMetasOf (Value.Obj 0 ∷ []) (Some class.now) metas.items) }
{
    let target = MetaObject::of(alloc, 0, &Value::Obj(0), Some(class))?;
    Ok(vec![in alloc; target]?)
}

/// What is bound to read the member of a name, where the object suggests it: the language answers nothing else.
fn read(
    rt: &impl Wait,
    alloc: Global,
    count: u32,
    name: &DynText,
) -> Result<Option<Vec<u8>>, Fail> {
    let table = ClassTable::new(alloc)?;
    let mut pass = table.pass(alloc)?;
    let class = class_of(rt, alloc, &table, &mut pass, count)?;
    if name.as_str().len() > 64 {
        return Err(Fail::new("no name"));
    }
    let binder = Binder::GetMember {
        name: name.copy()?,
        ignore_case: false,
    };
    let language = Echo {
        functions: FunTable {
            params: Items::new(alloc),
        },
    };
    let metas = metas_of(alloc, &class)?;
    let mut cx = BindContext {
        table: &table,
        pass: &mut pass,
    };
    match MetaObject::bind_get_member(alloc, rt, &language, &mut cx, &binder, &metas) {
        Ok(bound) => Ok(Some(printed(alloc, &bound)?)),
        Err(_) => Ok(None),
    }
}

#[test]
fn an_object_suggests_the_members_that_it_has(rt: HostRuntime) -> Result<(), Fail> {
    let alloc = rt.alloc();
    let cases = [
        ("m0", 0, None),
        ("m0", 1, Some("(and (kind 0 Obj) (class 1)) (read 0)")),
        ("m1", 2, Some("(and (kind 0 Obj) (class 2)) (read 1)")),
        ("m2", 2, None),
    ];
    for (name, count, want) in cases {
        let found = read(&rt, alloc, count, &text(alloc, name)?)?;
        let as_wanted = match (&found, want) {
            (Some(found), Some(want)) => found.as_slice() == want.as_bytes(),
            (None, None) => true,
            _ => false,
        };
        assert!(rt; as_wanted, "{name} of {count}");
    }
    Ok(())
}
