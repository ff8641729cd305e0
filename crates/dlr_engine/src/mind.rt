//! What a pass knows beside its rows.
ghost use Rattle.expando_class.specs.Pass.{IsPassOf};
ghost use Rattle.dlr_engine.specs.BindingProps.{pass_prop};

use crate::binding::bind_in;
use dyn_value::Value;
use expando_class::{ClassPass, ClassRef, ClassTable};
use known_rules::BoundRule;
use meta_object::{BindContext, Language};
use rule::Binds;
use standard_binders::Binder;
use std::alloc::{AllocError, Global};
use std::snapshot::Snapshot;
use std::sync::Wait;

/// Classes of one table that a pass knows, and how often it bound.
#[derive(Drop)]
pub(crate) struct Mind {
    classes: ClassPass,
    binds: Binds,
    table: Snapshot<ClassTable>,
    ghost own: { IsPassOf table.value classes } by { pass_prop table.value classes },
}

impl Mind {
    ghost use Rattle.std.specs.Prelude.{◌≡◌, ◌+◌, ◌^◌, ◌<◌, IfOk, OnErr, OnOk};
    ghost use Rattle.std.specs.Option.{option_copied};
    ghost use Rattle.standard_binders.specs.Functions.{HaveFewParameters};
    ghost use Rattle.dlr_engine.specs.Bindings.{IsBindable, IsRuleFor};
    ghost use Rattle.dlr_engine.specs.Knowing.{IsOwnRule};
    ghost use Rattle.dlr_engine.specs.Minds.{binds_in, classes_in, table_in};

    /// Nothing is known but the root class, and nothing was bound. The one error is want of memory.
    pub(crate) fn new(alloc: Global, table: &ClassTable) -> Result<Mind, AllocError>
        ensures table { IfOk result (λ m. table_in m ≡ table.now) }
        ensures binds { IfOk result (λ m. binds_in m ≡ 0) }
    {
        let classes = table.pass(alloc)?;
        Ok(Mind {
            classes,
            binds: Binds { count: 0 },
            table: Snapshot::of(table),
        })
    }

    /// How often it bound.
    pub(crate) fn binds(&self) -> u64
        ensures { result ≡ binds_in self.now }
    {
        self.binds.count
    }

    /// A rule for the operation on these operands, the target first, where the class is lent, with the classes that its
    /// claim names. Where memory is refused, there may be a further class, which no object has.
    pub(crate) fn bind<L: Language, R: Wait>(
        &mut self,
        rt: &R,
        alloc: Global,
        lang: &L,
        table: &ClassTable,
        binder: &Binder,
        operands: &[Value],
        class: Option<&ClassRef>,
    ) -> Result<BoundRule, AllocError>
        requires table { table_in self.old ≡ table.now }
        requires few_binds { binds_in self.old < 2 ^ 60 }
        requires few { HaveFewParameters (L.functions lang.now) }
        requires bindable { IsBindable (L.functions lang.now) table.now binder.now operands.now (option_copied class) }
        ensures rule { let lent = option_copied class.entry in
            IfOk result (λ b. IsRuleFor (L.functions lang.now) (classes_in self.new) binder.now operands.now lent b.rule) }
        ensures own { IfOk result (IsOwnRule (L.functions lang.now) table.now binder.now) }
        ensures table { table_in self.new ≡ table_in self.old }
        ensures binds { OnOk result (binds_in self.new ≡ binds_in self.old + 1) }
        ensures refused { OnErr result (binds_in self.new ≡ binds_in self.old) }
    {
        let mut cx = BindContext {
            table,
            pass: &mut self.classes,
        };
        let rule = bind_in(
            rt,
            alloc,
            lang,
            &mut self.binds,
            &mut cx,
            binder,
            operands,
            class,
        )?;
        Ok(BoundRule::new(rule, table, &self.classes, class))
    }
}
