//! The state of one object.
ghost use Rattle.std.specs.Prelude.{◌≡◌, ℕ, ◌+◌, ◌<◌, ◌≤◌, ◌++◌, ◌∷◌, List, [], length, Some, OnOk, OnErr, slice_get, slice_set, remove};
ghost use Rattle.expando_class.specs.Class.{names_of};

use dyn_value::Value;
use expando_class::ClassRef;
use std::alloc::{AllocError, Global};
use std::mem;

/// The state of an object: its class, and a value for each name of the class, at the place of that name.
#[derive(Drop)]
pub struct ObjState {
    class: ClassRef,
    values: Vec<Value>,
    pub ghost even: { length values.items ≡ length (names_of class) },
}

impl ObjState {
    ghost use Rattle.expando_object.specs.State.{class_in, names_in, values_in, spare_in};

    /// The state of an object with no members. It takes no memory, and later growth takes it of `alloc`.
    pub fn new(alloc: Global, root: ClassRef) -> ObjState
        requires { names_of root ≡ [] }
        ensures class { class_in result ≡ root }
        ensures values { values_in result ≡ [] }
        ensures spare { spare_in result ≡ 0 }
    {
        ObjState {
            class: root,
            values: Vec::new(alloc),
        }
    }

    /// The class of the object.
    pub fn class(&self) -> &ClassRef
        ensures class { result.now ≡ class_in self.now }
        ensures even { length (values_in self.now) ≡ length (names_in self.now) }
    {
        &self.class
    }

    /// The value at a place.
    pub fn read(&self, place: u16) -> &Value
        requires { place < length (names_in self.now) }
        ensures { slice_get (values_in self.now) place ≡ Some result.now }
    {
        &self.values[place as usize]
    }

    /// Puts a value at a place, and answers the value that stood there. It takes no memory.
    pub fn write(&mut self, place: u16, value: Value) -> Value
        requires { place < length (names_in self.old) }
        ensures stood { slice_get (values_in self.old) place ≡ Some result }
        ensures values { values_in self.new ≡ slice_set (values_in self.old) place value }
        ensures class { class_in self.new ≡ class_in self.old }
        ensures spare { spare_in self.new ≡ spare_in self.old }
    {
        mem::replace(&mut self.values[place as usize], value)
    }

    /// Makes room for one more value, if there is none yet. The one error is want of memory. Either way class and
    /// values stay.
    pub fn reserve(&mut self) -> Result<(), AllocError>
        ensures room { OnOk result (1 ≤ spare_in self.new) }
        ensures refused { OnErr result ((spare_in self.old ≡ 0) × (spare_in self.new ≡ 0)) }
        ensures grows { spare_in self.old ≤ spare_in self.new }
        ensures values { values_in self.new ≡ values_in self.old }
        ensures class { class_in self.new ≡ class_in self.old }
    {
        self.values.reserve(1)
    }

    /// Adds a member at the end, whose name is the last one of the class that is handed in. It takes no memory.
    pub fn append(&mut self, class: ClassRef, value: Value)
        requires room { 1 ≤ spare_in self.old }
        requires names { (name : List ℕ) × (names_of class ≡ names_in self.old ++ name ∷ []) }
        ensures class { class_in self.new ≡ class }
        ensures values { values_in self.new ≡ values_in self.old ++ value ∷ [] }
        ensures spare { spare_in self.new + 1 ≡ spare_in self.old }
    {
        self.values.push_reserved(value);
        self.class = class;
    }

    /// Removes the member at a place, and answers its value. The members after it come one place nearer to the front.
    /// It takes no memory and gives none back.
    pub fn remove(&mut self, place: u16, class: ClassRef) -> Value
        requires place { place < length (names_in self.old) }
        requires names { names_of class ≡ remove (names_in self.old) place }
        ensures stood { slice_get (values_in self.old) place ≡ Some result }
        ensures class { class_in self.new ≡ class }
        ensures values { values_in self.new ≡ remove (values_in self.old) place }
        ensures spare { spare_in self.new ≡ spare_in self.old + 1 }
    {
        let value = self.values.remove(place as usize);
        self.class = class;
        value
    }
}
