//! What is bound for each binder, as text that is worked out by hand; what is answered of claims; and that rules are shared
//! by threads.
ghost use Rattle.std.specs.Prelude.{IfOk};
ghost use Rattle.expando_class.specs.Class.{IsClassOf};
ghost use Rattle.expando_class.specs.Pass.{IsPassOf};

mod binding;
mod claims;
mod operations;

use dyn_value::DynText;
use expando_class::{ClassPass, ClassRef, ClassTable};
use sqlite_items::Items;
use standard_binders::FunTable;
use std::alloc::Global;
use std::sync::Wait;
use std::test::Fail;

fn text(alloc: Global, characters: &str) -> Result<DynText, Fail> {
    Ok(DynText::from_str(alloc, characters)?.ok_or("too long")?)
}

/// The class with these names, each a new one at the end; its number is their count where the table had none.
fn class_of(
    rt: &impl Wait,
    table: &ClassTable,
    pass: &mut ClassPass,
    names: &[&str],
) -> Result<ClassRef, Fail>
    requires { IsPassOf table.now pass.old }
    ensures pass { IsPassOf table.now pass.new }
    ensures of { IfOk result (IsClassOf table.now) }
{
    let mut class = table.root();
    for name in names {
        class = with_name(rt, table, pass, &class, name)?;
    }
    Ok(class)
}

/// The class with a name more at the end.
fn with_name(
    rt: &impl Wait,
    table: &ClassTable,
    pass: &mut ClassPass,
    class: &ClassRef,
    name: &str,
) -> Result<ClassRef, Fail>
    requires pass { IsPassOf table.now pass.old }
    requires of { IsClassOf table.now class.now }
    ensures pass { IsPassOf table.now pass.new }
    ensures of { IfOk result (IsClassOf table.now) }
{
    if table.place_of(class, name).is_some() || table.size(class) >= 64 || name.len() > 64 {
        return Err(Fail::new("no room"));
    }
    let added = table.add(rt, pass, class, name)?;
    Ok(added)
}

/// Functions with these names of parameters.
fn functions(alloc: Global, parameters: &[&[&str]]) -> Result<FunTable, Fail> {
    let mut params = Items::new(alloc);
    for names in parameters {
        params.push(texts(alloc, names)?)?;
    }
    Ok(FunTable { params })
}

fn texts(alloc: Global, words: &[&str]) -> Result<Items<DynText>, Fail> {
    let mut texts = Items::new(alloc);
    for word in words {
        texts.push(text(alloc, word)?)?;
    }
    Ok(texts)
}
