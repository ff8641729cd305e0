//! That an adopted rule which passes on an object's class fits the object as it stands.
ghost use Rattle.std.specs.Prelude.{◌≡◌, IfSome, Some};
ghost use Rattle.expando_class.specs.declared.class.ClassRef.{ClassRef as Shown};
ghost use Rattle.expando_class.specs.Class.{IsClassOf, names_of, number_of};
ghost use Rattle.rule.specs.Claimed.{IsAdopted};
ghost use Rattle.rule.specs.Rules.{claim_of};
ghost use Rattle.standard_binders.specs.Functions.{Functions};
ghost use Rattle.known_rules.specs.Guarding.{FitsClass, Passes};

use crate::bound::copied;
use dyn_value::Value;
use expando_class::{ClassRef, ClassTable};
use rule::{Adopted, Rule};

/// The class after that an adopted rule names, where the rule passes on these operands and the number of this class.
///
/// The rule then fits each state of this class, whichever pass made the class and whichever bound the rule: one number
/// has one list of names. So it can be committed to an object of the class, with the class after that comes back.
pub fn agree(
    rule: &Rule,
    adopted: &Adopted,
    table: &ClassTable,
    operands: &[Value],
    class: &ClassRef,
) -> Option<ClassRef>
    requires adopted { (functions : Functions) × IsAdopted functions table.now (claim_of rule.now) adopted.now }
    requires own { IsClassOf table.now class.now }
    requires passes { Passes operands.now (number_of class.now) rule.now }
    ensures after { result ≡ adopted.now.after }
    ensures fits { FitsClass rule.now operands.now table.now class.now result }
{
    // It is sound.
    rule.claim();
    show_same_names(table, &adopted.class, class);
    copied(adopted.after.as_ref())
}

/// Shows that a class of the same number has the same names.
fn show_same_names(table: &ClassTable, adopted: &Option<ClassRef>, class: &ClassRef)
    requires adopted { IfSome adopted.now (IsClassOf table.now) }
    requires own { IsClassOf table.now class.now }
    ensures { (k : Shown) → adopted.now ≡ Some k → number_of k ≡ number_of class.now
        → names_of k ≡ names_of class.now }
{
    if let Some(adopted) = adopted {
        table.same(adopted, class);
    }
}
