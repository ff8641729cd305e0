ghost use Rattle.std.specs.Prelude.{◌≡◌, ℕ, [], Some, IsSome, IfOk, OnErr};
ghost use Rattle.std.specs.List.{AllByRecursion, position};
ghost use Rattle.std.specs.Str.{bytes_eq};
ghost use Rattle.dyn_value.specs.declared.value.Value.{Value};
ghost use Rattle.dyn_value.specs.Proper.{IsProperIn};
ghost use Rattle.object_model.specs.Accesses.{access_of, Reads, Writes, Deletes};
ghost use Rattle.object_model.specs.Journals.{outcome_by};
ghost use Rattle.object_model.specs.Members.{AreProperIn};
ghost use Rattle.object_model.specs.Plain.{IsAnswerIn};
ghost use Rattle.object_model.specs.Shown.{shown};
ghost use Rattle.object_model.specs.Steps.{object_step, step_by};

use crate::access::Access;
use crate::member::Member;
use dyn_value::{DynText, Fault, Outcome, Value};
use sqlite_items::Items;
use standard_binders::Binder;
use std::alloc::{AllocError, Global};
use std::marker::Model;

/// The members of an object, in the order in which they were added: distinct names, 64 at most.
///
/// Contracts see it as the list of them.
#[derive(Debug, Drop)]
pub struct ObjectMembers {
    members: Items<Member>,
}

impl Model for ObjectMembers {
    ghost use Rattle.object_model.specs.Members.{Members, AreMembers};

    ghost Value = { Members };

    ghost view = { λ o. o.members };

    ghost invariant = { λ o. AreMembers o.members };
}

impl ObjectMembers {
    /// The most members that an object may have.
    const MOST: usize = 64;

    /// An object without members.
    pub fn new(alloc: Global) -> ObjectMembers
        ensures { result ≡ [] }
    {
        ObjectMembers {
            members: Items::new(alloc),
        }
    }

    /// The members.
    pub fn members(&self) -> &[Member]
        ensures { result.now ≡ self.now }
    {
        self.members.as_slice()
    }

    /// The outcome that [`ObjectMembers::step`] would answer; the members stay. The one error is want of memory.
    pub fn answer(&self, binder: &Binder, operands: &[Value]) -> Result<Outcome, AllocError>
        requires { IsSome (access_of binder.now operands.now) }
        ensures { IfOk result (λ o. outcome_by (object_step self.now binder.now operands.now) ≡ Some o) }
    {
        self.answer_to(Access::of(binder, operands))
    }

    /// Makes an operation on the members, with the operands after the target, and answers its outcome. Its binder is
    /// one on members, and there are as many operands as that has. Where memory is refused, the members stay.
    ///
    /// - A read answers the member's value, or `NoMember`.
    /// - A write answers nil. It leaves a member in its place, adds one that is not there at the end, and
    ///   answers `MembersFull` where it would be the 65th.
    /// - A delete removes the member and answers nil, or `NoMember`.
    ///
    /// An index operation does so with the member that has its key as its name. It answers `NoIndex` where the key is
    /// no text, or one of more than 64 bytes. A member that is to be called is read.
    pub fn step(&mut self, binder: &Binder, operands: &[Value]) -> Result<Outcome, AllocError>
        requires { IsSome (access_of binder.now operands.now) }
        ensures step { IfOk result (λ o.
            object_step self.old binder.now operands.now ≡ Some (record { members = self.new; outcome = o })) }
        ensures proper { (functions objects : ℕ) → AreProperIn functions objects self.old →
            AllByRecursion (IsProperIn functions objects) operands.now → AreProperIn functions objects self.new }
        ensures answer { (functions objects : ℕ) →
            AreProperIn functions objects self.old → IfOk result (IsAnswerIn functions objects) }
        ensures refused { OnErr result (self.new ≡ self.old) }
    {
        self.make(Access::of(binder, operands))
    }

    /// The outcome of an access.
    fn answer_to(&self, access: Access) -> Result<Outcome, AllocError>
        ensures { IfOk result (λ o. o ≡ (step_by (shown access.entry) self.now).outcome) }
    {
        match access {
            Access::Read(name) => self.read(name),
            Access::Write(name, _) => Ok(self.answer_to_write(name)),
            Access::Delete(name) => self.answer_to_delete(name),
            Access::NoKey => Ok(Outcome::Fault(Fault::NoIndex)),
        }
    }

    /// Makes an access, and answers its outcome.
    fn make(&mut self, access: Access) -> Result<Outcome, AllocError>
        ensures step { IfOk result (λ o.
            step_by (shown access.entry) self.old ≡ record { members = self.new; outcome = o }) }
        ensures refused { OnErr result (self.new ≡ self.old) }
    {
        match access {
            Access::Read(name) => self.read(name),
            Access::Write(name, value) => self.write(name, value),
            Access::Delete(name) => self.delete(name),
            Access::NoKey => Ok(Outcome::Fault(Fault::NoIndex)),
        }
    }

    /// The value of the member of this name, or `NoMember`.
    fn read(&self, name: &DynText) -> Result<Outcome, AllocError>
        ensures { IfOk result (λ o. step_by (Reads name.now) self.now ≡ record { members = self.now; outcome = o }) }
    {
        match self.place_of(name) {
            Some(place) => {
                let member = &self.members.as_slice()[place];
                let value = member.value.copy()?;
                Ok(Outcome::Value(value))
            }
            None => Ok(Outcome::Fault(Fault::NoMember(name.copy()?))),
        }
    }

    /// Gives the member of this name the value, in its place; or adds it at the end, or answers `MembersFull`.
    fn write(&mut self, name: &DynText, value: &Value) -> Result<Outcome, AllocError>
        ensures step { IfOk result (λ o.
            step_by (Writes name.now value.now) self.old ≡ record { members = self.new; outcome = o }) }
        ensures refused { OnErr result (self.new ≡ self.old) }
    {
        let member = Member {
            name: name.copy()?,
            value: value.copy()?,
        };
        match self.place_of(name) {
            Some(place) => self.members.set(place, member),
            None if self.members.len() == ObjectMembers::MOST => {
                return Ok(Outcome::Fault(Fault::MembersFull));
            }
            None => self.members.push(member)?,
        }
        Ok(Outcome::Value(Value::Nil))
    }

    /// Removes the member of this name, or answers `NoMember`.
    fn delete(&mut self, name: &DynText) -> Result<Outcome, AllocError>
        ensures step { IfOk result (λ o.
            step_by (Deletes name.now) self.old ≡ record { members = self.new; outcome = o }) }
        ensures refused { OnErr result (self.new ≡ self.old) }
    {
        let Some(place) = self.place_of(name) else {
            return Ok(Outcome::Fault(Fault::NoMember(name.copy()?)));
        };
        self.members.remove(place);
        Ok(Outcome::Value(Value::Nil))
    }

    /// The outcome of a write.
    fn answer_to_write(&self, name: &DynText) -> Outcome
        ensures { (v : Value) → result ≡ (step_by (Writes name.now v) self.now).outcome }
    {
        match self.place_of(name) {
            Some(_) => Outcome::Value(Value::Nil),
            None if self.members.len() == ObjectMembers::MOST => Outcome::Fault(Fault::MembersFull),
            None => Outcome::Value(Value::Nil),
        }
    }

    /// The outcome of a delete.
    fn answer_to_delete(&self, name: &DynText) -> Result<Outcome, AllocError>
        ensures { IfOk result (λ o. o ≡ (step_by (Deletes name.now) self.now).outcome) }
    {
        match self.place_of(name) {
            Some(_) => Ok(Outcome::Value(Value::Nil)),
            None => Ok(Outcome::Fault(Fault::NoMember(name.copy()?))),
        }
    }

    /// The place of the member of this name.
    fn place_of(&self, name: &DynText) -> Option<usize>
        ensures { result ≡ position (λ m. bytes_eq m.name name.now) self.now }
    {
        let members = self.members.as_slice();
        members.iter().position(|member| member.name.same(name))
    }
}
