//! The table of classes, and what a pass does with it.
ghost use Rattle.std.specs.Prelude.{◌≡◌, ◌≢◌, ◌<◌, ◌≤◌, ◌++◌, ◌∷◌, ◌↔◌, ℕ, [], length, All, Some, None, IsTrue, IsSome, IfSome, IfNone, IfOk, IfErr, slice_get, remove};
ghost use Rattle.std.specs.Str.{chars};
ghost use Rattle.expando_class.specs.Listing.{AreNames};

use crate::class::ClassRef;
use crate::names::Names;
use crate::pass::ClassPass;
use std::alloc::{AllocError, Global};
use std::sync::Wait;

/// Classes that only come and never go, so that threads add and read them through a `&`.
#[derive(Drop)]
pub struct ClassTable {
    classes: boxcar::Vec<Names>,
    root: Names,
    ghost rooted: { root ≡ [] },
}

impl ClassTable {
    ghost use Rattle.expando_class.specs.Class.{number_of, names_of, IsClassOf};
    ghost use Rattle.expando_class.specs.Pass.{class_map, IsPassOf, KnowsRootAlone, KnowsNone, Learns, KnowsAll, KnowsSame};

    /// A table with the root class alone, which has the number 0 and no names, or want of memory.
    pub fn new(alloc: Global) -> Result<ClassTable, AllocError> {
        Ok(ClassTable {
            classes: boxcar::Vec::new(alloc)?,
            root: Names::empty(alloc),
        })
    }

    /// A pass that knows the root alone, or want of memory.
    pub fn pass(&self, alloc: Global) -> Result<ClassPass, AllocError>
        ensures pass { IfOk result (IsPassOf self.now) }
        ensures root { IfOk result KnowsRootAlone }
    {
        ClassPass::new(alloc)
    }

    /// The root class, which has no names.
    pub fn root(&self) -> ClassRef
        ensures of { IsClassOf self.now result }
        ensures number { number_of result ≡ 0 }
        ensures names { names_of result ≡ [] }
    {
        ClassRef::root()
    }

    // The names of a class.
    fn names(&self, class: &ClassRef) -> &Names
        requires { IsClassOf self.now class.now }
        ensures { result.now ≡ names_of class.now }
    {
        match &class.token {
            None => &self.root,
            Some(token) => self.classes.value(token),
        }
    }

    /// The place of a name in a class. `None` exactly where the class has no such name.
    pub fn place_of(&self, class: &ClassRef, name: &str) -> Option<u16>
        requires { IsClassOf self.now class.now }
        ensures some { IfSome result (λ place. slice_get (names_of class.now) place ≡ Some (chars name.now)) }
        ensures none { IfNone result (All (λ other. other ≢ chars name.now) (names_of class.now)) }
    {
        self.names(class).place_of(name)
    }

    /// How many names a class has.
    pub fn size(&self, class: &ClassRef) -> u16
        requires { IsClassOf self.now class.now }
        ensures size { result ≡ length (names_of class.now) }
        ensures names { AreNames (names_of class.now) }
    {
        self.names(class).size()
    }

    /// The name at a place of a class.
    pub fn name_at(&self, class: &ClassRef, place: u16) -> &str
        requires of { IsClassOf self.now class.now }
        requires place { place < length (names_of class.now) }
        ensures { slice_get (names_of class.now) place ≡ Some (chars result.now) }
    {
        self.names(class).name_at(place)
    }

    /// The class with a number. `None` never comes for 0, the root. For any other number it means that the table
    /// does not show one now.
    pub fn look(&self, number: u128) -> Option<ClassRef>
        ensures of { IfSome result (IsClassOf self.now) }
        ensures number { IfSome result (λ class. number_of class ≡ number) }
        ensures root { number ≡ 0 → IsSome result }
    {
        if number == 0 {
            return Some(self.root());
        }
        let index = usize::try_from(number - 1).ok()?;
        let token = self.classes.witness(index)?;
        Some(ClassRef { token: Some(token) })
    }

    /// Whether two references have one number. They then have the same names.
    pub fn same(&self, left: &ClassRef, right: &ClassRef) -> bool
        requires left { IsClassOf self.now left.now }
        requires right { IsClassOf self.now right.now }
        ensures same { IsTrue result ↔ (number_of left.now ≡ number_of right.now) }
        ensures names { number_of left.now ≡ number_of right.now → names_of left.now ≡ names_of right.now }
    {
        match (&left.token, &right.token) {
            (None, None) => true,
            (Some(one), Some(other)) if one.index() == other.index() => {
                self.classes.agrees(one, other);
                true
            }
            _ => false,
        }
    }

    /// The class with one name more, at the end. Where the pass knows a class with that list, it is that class. Else
    /// its number is one that the pass did not know. The pass knows it from then on, with all that it knew before. For
    /// want of memory the pass knows what it knew.
    pub fn add(
        &self,
        rt: &impl Wait,
        pass: &mut ClassPass,
        class: &ClassRef,
        name: &str,
    ) -> Result<ClassRef, AllocError>
        requires pass { IsPassOf self.now pass.old }
        requires of { IsClassOf self.now class.now }
        requires new { All (λ other. other ≢ chars name.now) (names_of class.now) }
        requires short { length name.now ≤ 64 }
        requires room { length (names_of class.now) < 64 }
        ensures pass { IsPassOf self.now pass.new }
        ensures of { IfOk result (IsClassOf self.now) }
        ensures names { IfOk result (λ added. names_of added ≡ names_of class.now ++ chars name.now ∷ []) }
        ensures known { IfOk result (λ added. (number : ℕ) →
            class_map pass.old number ≡ Some (names_of added) → number_of added ≡ number) }
        ensures fresh { IfOk result (λ added. KnowsNone pass.old (names_of added)
            → class_map pass.old (number_of added) ≡ None) }
        ensures learns { IfOk result (Learns pass.old pass.new) }
        ensures keeps { KnowsAll pass.old pass.new }
        ensures err { IfErr result (λ _. KnowsSame pass.old pass.new) }
    {
        self.class_with(rt, pass, self.names(class).with(name)?)
    }

    /// The class without the name at a place. The rest is as for `add`.
    pub fn remove(
        &self,
        rt: &impl Wait,
        pass: &mut ClassPass,
        class: &ClassRef,
        place: u16,
    ) -> Result<ClassRef, AllocError>
        requires pass { IsPassOf self.now pass.old }
        requires of { IsClassOf self.now class.now }
        requires place { place < length (names_of class.now) }
        ensures pass { IsPassOf self.now pass.new }
        ensures of { IfOk result (IsClassOf self.now) }
        ensures names { IfOk result (λ left. names_of left ≡ remove (names_of class.now) place) }
        ensures known { IfOk result (λ left. (number : ℕ) →
            class_map pass.old number ≡ Some (names_of left) → number_of left ≡ number) }
        ensures fresh { IfOk result (λ left. KnowsNone pass.old (names_of left)
            → class_map pass.old (number_of left) ≡ None) }
        ensures learns { IfOk result (Learns pass.old pass.new) }
        ensures keeps { KnowsAll pass.old pass.new }
        ensures err { IfErr result (λ _. KnowsSame pass.old pass.new) }
    {
        self.class_with(rt, pass, self.names(class).without(place)?)
    }

    // The class with a list of names: the one that the pass knows, or a new one.
    fn class_with(
        &self,
        rt: &impl Wait,
        pass: &mut ClassPass,
        names: Names,
    ) -> Result<ClassRef, AllocError>
        requires { IsPassOf self.now pass.old }
        ensures pass { IsPassOf self.now pass.new }
        ensures of { IfOk result (IsClassOf self.now) }
        ensures names { IfOk result (λ class. names_of class ≡ names) }
        ensures known { IfOk result (λ class. (number : ℕ) →
            class_map pass.old number ≡ Some names → number_of class ≡ number) }
        ensures fresh { IfOk result (λ class. KnowsNone pass.old names
            → class_map pass.old (number_of class) ≡ None) }
        ensures learns { IfOk result (Learns pass.old pass.new) }
        ensures keeps { KnowsAll pass.old pass.new }
        ensures err { IfErr result (λ _. KnowsSame pass.old pass.new) }
    {
        if let Some(class) = pass.find(&names) {
            return Ok(class);
        }
        let key = names.clone()?;
        let Ok(token) = self.classes.push_shown(rt, names) else {
            return Err(AllocError);
        };
        let class = ClassRef { token: Some(token) };
        self.tell_apart(pass, &class);
        pass.learn(&class, key)?;
        Ok(class)
    }

    // Shows that a class whose list the pass does not know has a number that the pass does not know. A number has
    // one list, so the pass never knows the number.
    fn tell_apart(&self, pass: &ClassPass, class: &ClassRef)
        requires pass { IsPassOf self.now pass.now }
        requires of { IsClassOf self.now class.now }
        requires none { KnowsNone pass.now (names_of class.now) }
        ensures { class_map pass.now (number_of class.now) ≡ None }
    {
        if let Some(known) = pass.known(class.number()) {
            self.same(&known, class);
            unreachable!();
        }
    }
}
