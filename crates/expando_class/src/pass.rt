//! What one pass knows of a table.
ghost use Rattle.std.specs.Prelude.{◌≡◌, ℕ, [], Some, None, IfOk, IfErr, IfSome, IfNone, option_map};
ghost use Rattle.expando_class.specs.Known.{names_at, StandAtNumbers, GivesNumbers, GivesKnown};

use crate::class::ClassRef;
use crate::names::Names;
use std::alloc::{AllocError, Global};
use std::collections::{BTreeMap, HashMap};

/// The classes that one pass knows: the root, and no two with one list of names.
#[derive(Drop)]
pub struct ClassPass {
    by_number: BTreeMap<u128, ClassRef>,
    by_names: HashMap<Names, u128>,
    ghost root: { names_at by_number 0 ≡ Some [] },
    ghost numbered: { StandAtNumbers by_number },
    ghost gives: { GivesNumbers by_number by_names },
    ghost given: { GivesKnown by_number by_names },
}

impl ClassPass {
    ghost use Rattle.expando_class.specs.declared.table.ClassTable.{ClassTable};
    ghost use Rattle.expando_class.specs.Class.{number_of, names_of, IsClassOf};
    ghost use Rattle.expando_class.specs.Pass.{class_map, IsPassOf, KnowsRootAlone, KnowsNone, KnowsEachOnce, Learns, KnowsAll, KnowsSame};

    // A pass that knows the root alone.
    pub(crate) fn new(alloc: Global) -> Result<ClassPass, AllocError>
        ensures root { IfOk result KnowsRootAlone }
        ensures of { (table : ClassTable) → IfOk result (IsPassOf table) }
    {
        let mut by_number = BTreeMap::new(alloc);
        let mut by_names = HashMap::new(alloc);
        by_number.insert(0, ClassRef::root())?;
        by_names.insert(Names::empty(alloc), 0)?;
        Ok(ClassPass {
            by_number,
            by_names,
        })
    }

    /// The class with a number, of the table that the pass is of. `None` exactly where the pass knows no class with
    /// that number. It takes no memory.
    pub fn known(&self, number: u128) -> Option<ClassRef>
        ensures number { IfSome result (λ class. number_of class ≡ number) }
        ensures names { option_map names_of result ≡ class_map self.now number }
        ensures of { (table : ClassTable) → IsPassOf table self.now → IfSome result (IsClassOf table) }
        ensures root { class_map self.now 0 ≡ Some [] }
        ensures once { KnowsEachOnce self.now }
    {
        Some(self.by_number.get(&number)?.copy())
    }

    // The known class with a list of names.
    pub(crate) fn find(&self, names: &Names) -> Option<ClassRef>
        ensures names { IfSome result (λ class. names_of class ≡ names.now) }
        ensures known { IfSome result (λ class. class_map self.now (number_of class) ≡ Some names.now) }
        ensures of { (table : ClassTable) → IsPassOf table self.now → IfSome result (IsClassOf table) }
        ensures alone { IfSome result (λ class. (number : ℕ) →
            class_map self.now number ≡ Some names.now → number_of class ≡ number) }
        ensures none { IfNone result (KnowsNone self.now names.now) }
    {
        let number = *self.by_names.get(names)?;
        self.known(number)
    }

    // Adds a class whose number and list the pass does not know yet.
    pub(crate) fn learn(&mut self, class: &ClassRef, names: Names) -> Result<(), AllocError>
        requires names { names ≡ names_of class.now }
        requires number { class_map self.old (number_of class.now) ≡ None }
        requires none { KnowsNone self.old (names_of class.now) }
        ensures learns { IfOk result (λ _. Learns self.old self.new class.now) }
        ensures of { (table : ClassTable) → IsPassOf table self.old → IsClassOf table class.now
            → IsPassOf table self.new }
        ensures keeps { KnowsAll self.old self.new }
        ensures err { IfErr result (λ _. KnowsSame self.old self.new) }
    {
        let number = class.number();
        self.by_number.insert(number, class.copy())?;
        match self.by_names.insert(names, number) {
            Ok(_) => Ok(()),
            Err(_) => {
                self.by_number.remove(&number);
                Err(AllocError)
            }
        }
    }
}
