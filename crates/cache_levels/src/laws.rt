//! What holds of the levels of operations. The functions compute nothing; their contracts are the facts.
ghost use Rattle.std.specs.Prelude.{◌≡◌, ◌≢◌, ◌<◌, ◌++◌, ◌∷◌, ℕ, [], Decides, List, Option, Some, length};
ghost use Rattle.answered_operations.specs.declared.operation.AnsweredOperation.{AnsweredOperation};
ghost use Rattle.dyn_value.specs.declared.entry.Entry.{Entry};
ghost use Rattle.dyn_value.specs.declared.value.Value.{Value};
ghost use Rattle.expando_class.specs.declared.class.ClassRef.{ClassRef};
ghost use Rattle.expando_class.specs.declared.pass.ClassPass.{ClassPass};
ghost use Rattle.expando_class.specs.Pass.{class_map};
ghost use Rattle.expr_tree.specs.Meanings.{passes};
ghost use Rattle.standard_binders.specs.declared.binder.Binder.{Binder};
ghost use Rattle.standard_binders.specs.Functions.{Functions};
ghost use Rattle.object_model.specs.Journals.{members_after};
ghost use Rattle.object_model.specs.Steps.{OnObject};
ghost use Rattle.rule_model.specs.ClassMaps.{ClassMap};
ghost use Rattle.rule_model.specs.Soundness.{Suit};
ghost use Rattle.meta_object.specs.declared.meta.MetaObject.{MetaObject};
ghost use Rattle.meta_object.specs.Operands.{AreMetasOf, IsLentFor};
ghost use Rattle.rule.specs.declared.claimed.Adopted.{Adopted};
ghost use Rattle.rule.specs.declared.rule.Rule.{Rule};
ghost use Rattle.rule.specs.Rules.{IsBoundRule, test_of};
ghost use Rattle.binder_cache.specs.Known.{KnownRule};
ghost use Rattle.call_site.specs.Chosen.{Chooses, TriesInOrder};
ghost use Rattle.call_site.specs.declared.choice.Level.{Level};
ghost use Rattle.call_site.specs.declared.choice.Level.TheVariants.{Bind};
ghost use Rattle.cache_levels.specs.Levels.{Counts, no_counts, raised, total};
ghost use Rattle.cache_levels.specs.Memories.{Answers, AreApart, HasMoved, HasWord, Memory};
ghost use Rattle.cache_levels.specs.RuleShapes.{AreNamedOnce, IsFor, PassesOn, ShowsAll, binder_in, shape_of};
ghost use Rattle.cache_levels.specs.Runs.{HasFewShapes, HasNone, IsAnsweredAt, IsAsked, KeepsNothing, KeepsRun, RemembersRun, members_in, number_at, run_levels, shape_on, target_of};
ghost use Rattle.cache_levels.specs.Shapes.{Shape, same_shape};

use meta_object::tests_are_those_of_the_operands;

/// The test of two shapes tells whether they are one.
pub fn shapes_are_told_apart()
    ensures { (one other : Shape) → Decides (same_shape one other) (one ≡ other) }
{}

/// A rule that is for a shape passes exactly on the operations of that shape, where no two classes have one list of
/// names.
pub fn rules_pass_on_their_shapes()
    ensures { (classes : ClassMap) (binders : List Binder) (number : ℕ) (r : Rule) (shape : Shape)
        (operands : List Value) (class : ℕ) (names : List (List ℕ)) →
        AreNamedOnce classes → Suit (binder_in binders number) operands → classes class ≡ Some names →
        IsFor classes binders number r shape →
        Decides (passes (test_of r) operands class) (shape ≡ shape_of binders number operands names) }
{}

/// A rule that is bound for an operation is for the operation's shape.
pub fn bound_rules_are_for_their_shapes()
    ensures { (functions : Functions) (pass : ClassPass) (binders : List Binder) (number : ℕ) (operands : List Value)
        (lent : Option ClassRef) (metas : List MetaObject) (class : ℕ) (names : List (List ℕ)) (r : Rule) →
        Suit (binder_in binders number) operands → AreMetasOf operands lent metas →
        IsLentFor (binder_in binders number) operands class lent → class_map pass class ≡ Some names →
        IsBoundRule functions pass (binder_in binders number) metas r →
        IsFor (class_map pass) binders number r (shape_of binders number operands names) }
{
    tests_are_those_of_the_operands();
}

/// A rule that is chosen at a site answers an operation there: at the level of the choice, with the rule's word.
pub fn chosen_rules_answer_operations()
    ensures { (binders : List Binder) (sites : List ℕ) (classes : ClassMap) (earlier : List AnsweredOperation)
        (o : AnsweredOperation) (class target : ℕ) (ring : List ℕ) (old new : List (KnownRule Rule Adopted))
        (level : Level) (index word : ℕ) → Chooses (PassesOn o.operands class) old new (Some level) index →
        TriesInOrder (PassesOn o.operands class) target ring old (Some level) index → HasWord new index word →
        AreApart new → Answers (IsFor classes binders (number_at sites o.site)) (PassesOn o.operands class)
        (shape_on binders sites earlier o) target ring old new word level }
{}

/// The level at which a lone pass answers an operation is a function of the operations before it; and what the pass
/// then keeps is what those operations and this one leave.
pub fn lone_passes_answer_at_the_levels_of_their_operations()
    ensures { (binders : List Binder) (sites : List ℕ) (classes : ClassMap)
        (earlier : List AnsweredOperation) (o : AnsweredOperation) (class : ℕ) (old new : Memory Rule Adopted)
        (level : Level) → AreNamedOnce classes → RemembersRun binders sites classes earlier old →
        IsAsked binders sites classes earlier o class →
        IsAnsweredAt binders sites classes earlier o class old new level →
        (run_levels binders sites (earlier ++ o ∷ []) ≡ raised level (run_levels binders sites earlier))
        × RemembersRun binders sites classes (earlier ++ o ∷ []) new }
{}

/// An operation on which no known rule passes is one that is bound, whatever becomes of its rule. And while no binder
/// has met more than 64 shapes, fewer than 64 of its rules are known.
pub fn lone_passes_bind_where_no_rule_passes()
    ensures { (binders : List Binder) (sites : List ℕ) (classes : ClassMap)
        (earlier : List AnsweredOperation) (o : AnsweredOperation) (class : ℕ) (m : Memory Rule Adopted) →
        AreNamedOnce classes → RemembersRun binders sites classes earlier m →
        IsAsked binders sites classes earlier o class → HasNone binders sites o class m →
        (run_levels binders sites (earlier ++ o ∷ []) ≡ raised Bind (run_levels binders sites earlier))
        × (HasFewShapes binders sites (earlier ++ o ∷ []) →
        length (m.known (number_at sites o.site)) < 64) }
{}

/// What a lone pass keeps is kept through each operation that it answers and settles: while no binder has met more than
/// 64 shapes, its counts are those of its operations.
pub fn counts_are_those_of_the_operations()
    ensures starts { (binders : List Binder) (sites : List ℕ) (classes : ClassMap) (m : Memory Rule Adopted) →
        KeepsNothing m → KeepsRun binders sites classes [] no_counts m }
    ensures answered { (binders : List Binder) (sites : List ℕ) (classes : ClassMap)
        (earlier : List AnsweredOperation) (o : AnsweredOperation) (class : ℕ) (counts : Counts)
        (old new : Memory Rule Adopted) (level : Level) → AreNamedOnce classes →
        KeepsRun binders sites classes earlier counts old →
        IsAsked binders sites classes earlier o class →
        IsAnsweredAt binders sites classes earlier o class old new level →
        KeepsRun binders sites classes (earlier ++ o ∷ []) (raised level counts) new }
    ensures past { (binders : List Binder) (sites : List ℕ) (classes : ClassMap)
        (earlier : List AnsweredOperation) (o : AnsweredOperation) (class : ℕ) (counts other : Counts)
        (old new : Memory Rule Adopted) → AreNamedOnce classes →
        KeepsRun binders sites classes earlier counts old →
        IsAsked binders sites classes earlier o class → HasNone binders sites o class old →
        length (old.known (number_at sites o.site)) ≡ 64 →
        KeepsRun binders sites classes (earlier ++ o ∷ []) other new }
    ensures stays { (binders : List Binder) (sites : List ℕ) (classes more : ClassMap)
        (operations : List AnsweredOperation) (counts : Counts) (old new : Memory Rule Adopted) →
        ShowsAll classes more → HasMoved old new → KeepsRun binders sites classes operations counts old →
        KeepsRun binders sites more operations counts new }
{}

/// Each operation is answered at one level; and no list of operations has fewer shapes than one that it begins with.
pub fn levels_count_all_operations()
    ensures total { (binders : List Binder) (sites : List ℕ) (operations : List AnsweredOperation) →
        total (run_levels binders sites operations) ≡ length operations }
    ensures few { (binders : List Binder) (sites : List ℕ) (earlier : List AnsweredOperation)
        (o : AnsweredOperation) → HasFewShapes binders sites (earlier ++ o ∷ []) →
        HasFewShapes binders sites earlier }
{}

/// The members that a run's operations leave of an object are those after its journal: an operation on the object is
/// the entry that it adds there, and leaves the members of all others.
pub fn operations_leave_the_members_of_journals()
    ensures grows { (binders : List Binder) (sites : List ℕ) (earlier : List AnsweredOperation)
        (o : AnsweredOperation) (on : OnObject) (seen : List Entry) (e : Entry) →
        target_of binders sites o ≡ Some on → e.binder ≡ number_at sites o.site → e.operands ≡ on.operands →
        members_after binders [] seen ≡ members_in binders sites earlier on.object →
        members_after binders [] (seen ++ e ∷ []) ≡ members_in binders sites (earlier ++ o ∷ []) on.object }
    ensures stays { (binders : List Binder) (sites : List ℕ) (earlier : List AnsweredOperation)
        (o : AnsweredOperation) (object : ℕ) →
        ((on : OnObject) → target_of binders sites o ≡ Some on → on.object ≢ object) →
        members_in binders sites (earlier ++ o ∷ []) object ≡ members_in binders sites earlier object }
{}
