ghost use Rattle.std.specs.Prelude.{◌≡◌, ◌≤◌, ℕ, ◌++◌, ◌∷◌, [], length, map, take, IfOk, OnOk};
ghost use Rattle.std.specs.List.{position};
ghost use Rattle.std.specs.Str.{bytes_eq};
ghost use Rattle.task_compile.specs.Compiled.{IsHead, IsItemName};
ghost use Rattle.task_compile.specs.CompiledScripts.{items_of};
ghost use Rattle.task_compile.specs.Runs.{name_of};
ghost use Rattle.script_grammar.specs.declared.tree.Head.TheVariants.{Name};

use dyn_value::{DynText, Value};
use script_grammar::{Function, Script};
use sqlite_items::Items;
use std::alloc::{AllocError, Global};
use task_code::NodeHead;

/// The names that items declare and that stand for values: those of the functions, and the shared ones.
#[derive(Debug, Drop)]
pub(crate) struct ItemNames {
    pub(crate) functions: Items<DynText>,
    pub(crate) shared: Items<DynText>,
}

/// What names stand for: those of the items, and the locals in scope in the order in which they were declared.
#[derive(Debug, Drop)]
pub(crate) struct Scope {
    pub(crate) items: ItemNames,
    pub(crate) locals: Items<DynText>,
}

impl Scope {
    /// One local more, with its number; more locals than numbers find no memory.
    pub(crate) fn declare(&mut self, name: &DynText) -> Result<u32, AllocError>
        ensures number { IfOk result (λ n. n ≡ length self.old.locals) }
        ensures locals { OnOk result (self.new.locals ≡ self.old.locals ++ name.now ∷ []) }
        ensures items { self.new.items ≡ self.old.items }
    {
        let number = number_at(self.locals.len())?;
        self.locals.push(name.copy()?)?;
        Ok(number)
    }

    /// So many locals stay in scope.
    pub(crate) fn leave(&mut self, count: usize)
        requires { count ≤ length self.old.locals }
        ensures locals { self.new.locals ≡ take count self.old.locals }
        ensures items { self.new.items ≡ self.old.items }
    {
        shorten(&mut self.locals, count);
    }
}

/// The names that the items of a script declare and that stand for values.
pub(crate) fn item_names(alloc: Global, script: &Script) -> Result<ItemNames, AllocError>
    ensures { IfOk result (λ items. items ≡ items_of script.now) }
{
    let functions = function_names(alloc, script.functions.as_slice())?;
    let shared = copied(alloc, script.shared.as_slice())?;
    Ok(ItemNames { functions, shared })
}

/// The names of functions, in order.
fn function_names(alloc: Global, functions: &[Function]) -> Result<Items<DynText>, AllocError>
    ensures { IfOk result (λ names. names ≡ map name_of functions.now) }
{
    let mut names = Items::new(alloc);
    for function in functions {
        names.push(function.name.copy()?)?;
    }
    Ok(names)
}

/// The same names.
pub(crate) fn copied(alloc: Global, names: &[DynText]) -> Result<Items<DynText>, AllocError>
    ensures { IfOk result (λ copies. copies ≡ names.now) }
{
    let mut copies = Items::new(alloc);
    for name in names {
        copies.push(name.copy()?)?;
    }
    Ok(copies)
}

/// The first names, so many.
fn shorten(names: &mut Items<DynText>, count: usize)
    requires { count ≤ length names.old }
    ensures { names.new ≡ take count names.old }
{
    'names: while names.len() > count {
        names.pop();
    }
}

/// The place of a name among these.
pub(crate) fn place_of(names: &[DynText], name: &DynText) -> Option<usize>
    ensures { result ≡ position (bytes_eq name.now) names.now }
{
    names.iter().position(|other| name.same(other))
}

/// The number at a place; more names than numbers find no memory.
pub(crate) fn number_at(place: usize) -> Result<u32, AllocError>
    ensures { IfOk result (λ n. n ≡ place) }
{
    match u32::try_from(place) {
        Ok(number) => Ok(number),
        Err(_) => Err(AllocError),
    }
}

/// The code of a name: a local in scope, or else what an item of the name is.
pub(crate) fn compile_name(scope: &Scope, name: &DynText) -> Result<NodeHead, AllocError>
    ensures { IfOk result (λ head. (site : ℕ) → IsHead scope.now.items scope.now.locals site (Name name.now) head) }
{
    match place_of(scope.locals.as_slice(), name) {
        Some(place) => Ok(NodeHead::Local(number_at(place)?)),
        None => compile_item_name(&scope.items, name),
    }
}

/// The code of a name that is no local's: a function, or else a shared object.
fn compile_item_name(items: &ItemNames, name: &DynText) -> Result<NodeHead, AllocError>
    ensures { IfOk result (λ head. IsItemName items.now name.now head) }
{
    match place_of(items.functions.as_slice(), name) {
        Some(place) => Ok(NodeHead::Literal(Value::Fun(number_at(place)?))),
        None => match place_of(items.shared.as_slice(), name) {
            Some(place) => Ok(NodeHead::Literal(Value::Obj(number_at(place)?))),
            None => Ok(NodeHead::Literal(Value::Nil)),
        },
    }
}
