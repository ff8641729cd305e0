//! Which known rules pass on an operation, and which rules of other passes are adopted.
use binder_cache::{Adopt, Probe};
use dyn_value::Value;
use expando_class::ClassTable;
use rule::{Adopted, Claimed, Rule, claim_holds};
use standard_binders::{Binder, FunTable};
use tree_eval::test;

/// Passes the rules whose test is true of these operands and a class of this number.
#[derive(Drop)]
pub(crate) struct Passing<'e> {
    pub(crate) operands: &'e [Value],
    pub(crate) class: u128,
}

impl<'e> Probe<Rule> for Passing<'e> {
    ghost use Rattle.known_rules.specs.Guarding.{Passes};

    ghost accepts = { λ s r. Passes s.operands.now s.class r };

    fn passes(&self, rule: &Rule) -> bool {
        test(rule.test(), self.operands, self.class)
    }
}

/// Adopts the rules of the binder whose claim holds, of what the table shows now and of these functions.
#[derive(Drop)]
pub(crate) struct Adopting<'e> {
    pub(crate) binder: &'e Binder,
    pub(crate) funs: &'e FunTable,
    pub(crate) table: &'e ClassTable,
}

impl<'e> Adopt<Rule, Adopted> for Adopting<'e> {
    ghost use Rattle.known_rules.specs.Guarding.{IsAdoptedIn};

    ghost admits = { λ s r adopted. IsAdoptedIn s.binder.now s.funs.now.params s.table.now r adopted };

    fn adopt(&mut self, rule: &Rule) -> Option<Adopted> {
        if !rule.binder().same(self.binder) {
            return None;
        }
        match claim_holds(rule, self.table, self.funs) {
            Claimed::Holds(adopted) => Some(adopted),
            Claimed::Fails | Claimed::Unseen => None,
        }
    }
}
