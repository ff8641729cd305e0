//! What holds of the metaobjects of an operation's operands. The functions compute nothing; their contracts are the
//! facts.
ghost use Rattle.std.specs.Prelude.{◌≡◌, ℕ, List, Option, map};
ghost use Rattle.dyn_value.specs.declared.value.Value.{Value};
ghost use Rattle.expando_class.specs.declared.class.ClassRef.{ClassRef};
ghost use Rattle.expando_class.specs.declared.pass.ClassPass.{ClassPass};
ghost use Rattle.expando_class.specs.declared.table.ClassTable.{ClassTable};
ghost use Rattle.standard_binders.specs.declared.binder.Binder.{Binder};
ghost use Rattle.standard_binders.specs.Functions.{Functions};
ghost use Rattle.rule_model.specs.Tests.{form_of, tests_by, tests_of};
ghost use Rattle.meta_object.specs.declared.meta.MetaObject.{MetaObject};
ghost use Rattle.meta_object.specs.Metas.{CanBind, Describes, known_in};
ghost use Rattle.meta_object.specs.Operands.{AreMetasOf, CanBeBound, IsLentFor};

/// The tests that a binding makes from metaobjects are those of the operation whose operands they are of.
pub fn tests_are_those_of_the_operands()
    ensures { (b : Binder) (operands : List Value) (class : Option ClassRef) (metas : List MetaObject) (number : ℕ) →
        AreMetasOf operands class metas → IsLentFor b operands number class →
        tests_by (form_of b) (map known_in metas) ≡ tests_of (form_of b) operands number }
{}

/// Metaobjects describe the operands that they are of.
pub fn metaobjects_describe_their_operands()
    ensures { (b : Binder) (operands : List Value) (class : Option ClassRef) (metas : List MetaObject) (number : ℕ) →
        AreMetasOf operands class metas → IsLentFor b operands number class → Describes metas operands number }
{}

/// An operation is bound by the metaobjects of its operands.
pub fn operations_are_bound_by_their_metaobjects()
    ensures { (functions : Functions) (table : ClassTable) (pass : ClassPass) (b : Binder) (operands : List Value)
        (class : Option ClassRef) (metas : List MetaObject) (number : ℕ) →
        AreMetasOf operands class metas → IsLentFor b operands number class →
        CanBeBound functions table pass b operands class → CanBind functions table pass b metas }
{}
