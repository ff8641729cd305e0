//! Rules that were bound, with the classes that their claims name.
ghost use Rattle.std.specs.Prelude.{◌≡◌, ℕ, IfSome, None, Some};
ghost use Rattle.std.specs.Option.{option_copied, option_map};
ghost use Rattle.expando_class.specs.Class.{IsClassOf, names_of, number_of};
ghost use Rattle.expando_class.specs.Pass.{IsPassOf, class_map};
ghost use Rattle.rule.specs.Claimed.{IsAdopted};
ghost use Rattle.rule.specs.Rules.{claim_of};
ghost use Rattle.standard_binders.specs.Functions.{Functions};
ghost use Rattle.known_rules.specs.Bounds.{IsClaimedFor};

use expando_class::{ClassPass, ClassRef, ClassTable};
use rule::{Adopted, Rule};
use rule_model::Claim;

/// A rule that was just bound, with the classes that its claim names.
#[derive(Drop)]
pub struct BoundRule {
    /// The rule.
    pub rule: Rule,
    /// The classes that its claim names.
    pub adopted: Adopted,
}

impl BoundRule {
    /// The rule with the classes that its claim names: `class`, that of the target, where one was lent to the binding,
    /// and the class after, which the pass knows. It takes no memory.
    ///
    /// Where the claim holds of these, as binding gives it, it is adopted in the table.
    pub fn new(
        rule: Rule,
        table: &ClassTable,
        pass: &ClassPass,
        class: Option<&ClassRef>,
    ) -> BoundRule
        requires pass { IsPassOf table.now pass.now }
        requires own { IfSome (option_copied class) (IsClassOf table.now) }
        ensures rule { result.rule ≡ rule }
        ensures adopted { (functions : Functions) →
            IsClaimedFor functions pass.now (option_copied class.entry) (claim_of rule)
            → IsAdopted functions table.now (claim_of rule) result.adopted }
    {
        let adopted = own_classes(rule.claim(), table, pass, class);
        BoundRule { rule, adopted }
    }
}

/// The classes that the claim names: the target's, and the class after as the pass knows it.
fn own_classes(
    claim: &Claim,
    table: &ClassTable,
    pass: &ClassPass,
    class: Option<&ClassRef>,
) -> Adopted
    requires pass { IsPassOf table.now pass.now }
    requires own { IfSome (option_copied class) (IsClassOf table.now) }
    ensures { (functions : Functions) → IsClaimedFor functions pass.now (option_copied class.entry) claim.now
        → IsAdopted functions table.now claim.now result }
{
    let Some(claimed) = &claim.class else {
        return Adopted {
            class: None,
            after: None,
        };
    };
    Adopted {
        class: copied(class),
        after: known_after(table, pass, claimed.after),
    }
}

/// A second reference to the class.
pub(crate) fn copied(class: Option<&ClassRef>) -> Option<ClassRef>
    ensures { result ≡ option_copied class.entry }
{
    match class {
        Some(class) => Some(class.copy()),
        None => None,
    }
}

/// The class of this number, as the pass knows it; none where no number is given.
fn known_after(table: &ClassTable, pass: &ClassPass, number: Option<u128>) -> Option<ClassRef>
    requires pass { IsPassOf table.now pass.now }
    ensures of { IfSome result (IsClassOf table.now) }
    ensures names { (n : ℕ) → number ≡ Some n → option_map names_of result ≡ class_map pass.now n }
    ensures number { (n : ℕ) → number ≡ Some n → IfSome result (λ after. number_of after ≡ n) }
    ensures none { number ≡ None → result ≡ None }
{
    let _table = table;
    pass.known(number?)
}
