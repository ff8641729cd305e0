//! Classes that grow by a name.
ghost use Rattle.std.specs.Prelude.{◌≡◌, ◌<◌, ◌≤◌, All, IfOk, length};
ghost use Rattle.expando_class.specs.Class.{IsClassOf};
ghost use Rattle.expando_class.specs.Pass.{IsPassOf};
ghost use Rattle.class_bench.specs.Growths.{IsGrowthOf};

use expando_class::{ClassPass, ClassRef, ClassTable};
use std::alloc::Global;
use std::io;
use std::io::ErrorKind;
use std::sync::Wait;

const GROWTHS: usize = 700;

/// The class that has the names of one class and one name more.
#[derive(Drop)]
pub struct Growth {
    pub from: ClassRef,
    pub name: String,
    pub to: ClassRef,
}

// Adds a name to a class, if it may be added.
fn grow(
    rt: &impl Wait,
    table: &ClassTable,
    pass: &mut ClassPass,
    from: ClassRef,
    name: String,
) -> io::Result<Growth>
    requires pass { IsPassOf table.now pass.old }
    requires of { IsClassOf table.now from }
    ensures pass { IsPassOf table.now pass.new }
    ensures growth { IfOk result (IsGrowthOf table.now) }
{
    if table.place_of(&from, &name).is_some() || table.size(&from) >= 64 || name.len() > 64 {
        return Err(ErrorKind::InvalidInput.into());
    }
    let to = table.add(rt, pass, &from, &name)?;
    Ok(Growth { from, name, to })
}

// The last growth of a class that begins with no names and has so many before it.
fn last_of_kind(
    rt: &impl Wait,
    alloc: Global,
    table: &ClassTable,
    pass: &mut ClassPass,
    kind: usize,
    before: usize,
) -> io::Result<Growth>
    requires { IsPassOf table.now pass.old }
    ensures pass { IsPassOf table.now pass.new }
    ensures growth { IfOk result (IsGrowthOf table.now) }
{
    let mut class = table.root();
    for place in 0..before {
        class = grow(
            rt,
            table,
            pass,
            class,
            format!(in alloc; "name_{place}_of_kind_{kind}")?,
        )?
        .to;
    }
    grow(
        rt,
        table,
        pass,
        class,
        format!(in alloc; "name_{before}_of_kind_{kind}")?,
    )
}

/// Growths of eleven kinds of classes that have up to 64 names. However many are taken from the front, they are spread
/// evenly over kinds and places.
pub fn grown(rt: &impl Wait, alloc: Global, table: &ClassTable) -> io::Result<Vec<Growth>>
    ensures growths { IfOk result (λ growths. All (IsGrowthOf table.now) growths.items) }
    ensures count { IfOk result (λ growths. length growths.items ≡ 700) }
{
    let mut pass = table.pass(alloc)?;
    let mut growths = Vec::with_capacity(alloc, GROWTHS)?;
    for number in 0..GROWTHS {
        let spread = number % 10 * 70 + number / 10 % 10 * 7 + number / 100;
        growths.push_reserved(last_of_kind(rt, alloc, table, &mut pass, spread / 64, spread % 64)?);
    }
    Ok(growths)
}

/// Makes the pass know the classes to which these grow.
pub fn learn(
    rt: &impl Wait,
    table: &ClassTable,
    pass: &mut ClassPass,
    growths: &[Growth],
) -> io::Result<()>
    requires pass { IsPassOf table.now pass.old }
    requires growths { All (IsGrowthOf table.now) growths.now }
    ensures { IsPassOf table.now pass.new }
{
    for growth in growths {
        table.add(rt, pass, &growth.from, &growth.name)?;
    }
    Ok(())
}
