//! Objects of a run, each with the journal of the operations on it.
ghost use Rattle.std.specs.Prelude.{◌≡◌, []};
ghost use Rattle.expando_class.specs.Class.{IsClassOf, number_of};
ghost use Rattle.expando_object.specs.State.{class_in, values_in};
ghost use Rattle.object_model.specs.Journals.{IsLegal, members_after};
ghost use Rattle.rule_model.specs.States.{HasMembers};
ghost use Rattle.tree_eval.specs.States.{state_of};
ghost use Rattle.object_history.specs.Entries.{AreOfTag};
ghost use Rattle.object_history.specs.RowProps.{class_prop, entries_prop, legal_prop};

use crate::entry_head::EntryHead;
use crate::ready::{Ready, make_ready};
use crate::sound::Sound;
use crate::tag::RowTag;
use dyn_value::{Entry, Outcome, Value};
use expando_class::{ClassRef, ClassTable};
use expando_object::ObjState;
use expr_tree::Body;
use std::alloc::{AllocError, Global};
use std::snapshot::Snapshot;
use tree_eval::eval;

/// An object of a run, and its journal: the entries of the operations on it, in order.
///
/// Its type keeps that the journal is legal by the binders of its tag, that the object has the members after it, and
/// that the values in it are proper in a run of the tag's functions and objects. It also counts its turns without an
/// entry (`idle`).
#[derive(Drop)]
pub struct ObjectRow<'p> {
    tag: RowTag<'p>,
    table: Snapshot<ClassTable>,
    state: ObjState,
    journal: Vec<Entry>,
    idles: u64,
    pub ghost legal: { IsLegal tag.binders.now [] journal.items } by { legal_prop tag.binders.now [] journal.items },
    pub ghost own: { IsClassOf table.value (class_in state) } by { class_prop table.value (class_in state) },
    pub ghost kept: { HasMembers (state_of state) (members_after tag.binders.now [] journal.items) },
    pub ghost proper: { AreOfTag tag journal.items } by { entries_prop tag journal.items },
}

impl<'p> ObjectRow<'p> {
    ghost use Rattle.std.specs.Prelude.{◌≡◌, ◌+◌, ◌-◌, ◌^◌, ◌<◌, ◌++◌, ◌∷◌, [], Some, IfOk, length};
    ghost use Rattle.expr_tree.specs.Meanings.{IsThere};
    ghost use Rattle.expr_tree.specs.Trees.{root};
    ghost use Rattle.object_model.specs.Plain.{IsAnswerIn};
    ghost use Rattle.object_model.specs.Journals.{outcome_by};
    ghost use Rattle.object_model.specs.Members.{AreMembers, AreProperIn};
    ghost use Rattle.object_model.specs.Steps.{object_step};
    ghost use Rattle.tree_eval.specs.States.{names_after};
    ghost use Rattle.object_history.specs.Operands.{IsOperation};
    ghost use Rattle.object_history.specs.Rows.{idles_of, journal_of, members_in, state_in, table_of, tag_of, IsUntouched};
    ghost use Rattle.object_history.specs.Readies.{arguments_of, head_of, operands_of, CanCommit, IsReady};
    ghost use Rattle.object_history.specs.Entries.{entry_by};

    /// An object without members, of the root class of the table, on which nothing was done. It takes no memory.
    pub fn new(alloc: Global, tag: RowTag<'p>, table: &ClassTable) -> ObjectRow<'p>
        ensures tag { tag_of result ≡ tag.entry }
        ensures table { table_of result ≡ table.now }
        ensures root { number_of (class_in (state_in result)) ≡ 0 }
        ensures journal { journal_of result ≡ [] }
        ensures idles { idles_of result ≡ 0 }
    {
        ObjectRow {
            tag,
            table: Snapshot::of(table),
            state: ObjState::new(alloc, table.root()),
            journal: Vec::new(alloc),
            idles: 0,
        }
    }

    /// The object's state, which has the members after the journal.
    pub fn state(&self) -> &ObjState
        ensures state { result.now ≡ state_in self.now }
        ensures own { IsClassOf (table_of self.now) (class_in result.now) }
        ensures has { HasMembers (state_of result.now) (members_in self.now) }
        ensures members { AreMembers (members_in self.now) }
        ensures proper { AreProperIn (tag_of self.now).functions (tag_of self.now).limit (members_in self.now) }
    {
        &self.state
    }

    /// How many entries the journal has.
    pub fn entry_count(&self) -> usize
        ensures { result ≡ length (journal_of self.now) }
    {
        self.journal.len()
    }

    /// The journal, which is legal.
    pub fn into_journal(self) -> Vec<Entry>
        ensures journal { result.items ≡ journal_of self.entry }
        ensures legal { IsLegal (tag_of self.entry).binders.now [] result.items }
    {
        self.journal
    }

    /// One turn more without an entry.
    pub fn idle(&mut self)
        requires few { idles_of self.old < 2 ^ 64 - 1 }
        ensures idles { idles_of self.new ≡ idles_of self.old + 1 }
        ensures state { state_in self.new ≡ state_in self.old }
        ensures journal { journal_of self.new ≡ journal_of self.old }
        ensures tag { tag_of self.new ≡ tag_of self.old }
        ensures table { table_of self.new ≡ table_of self.old }
    {
        self.idles += 1;
    }

    /// Takes all memory that an operation on the object needs, the operands with the object first: afterwards `commit`
    /// takes none. The one error is want of memory. With it or without it state, journal and idles stay.
    pub fn prepare(
        &mut self,
        alloc: Global,
        body: &Body,
        head: EntryHead,
        operands: &[Value],
    ) -> Result<Ready, AllocError>
        requires operation { IsOperation operands.now }
        // The body's root names only operands and places that are there.
        requires there { IsThere operands.now (values_in (state_in self.old)) (root body.now) }
        ensures ready { IfOk result (λ r. IsReady r head operands.now self.new body.now) }
        ensures untouched { IsUntouched self.old self.new }
    {
        make_ready(
            alloc,
            &mut self.state,
            &mut self.journal,
            body,
            head,
            operands,
        )
    }

    /// Evaluates the rule's body and appends the operation's entry; `after` is the class that the body names. The
    /// answer is the outcome. It takes no memory and cannot be refused.
    pub fn commit<S: Sound>(&mut self, rule: &S, ready: Ready, after: Option<ClassRef>) -> Outcome
        requires can { CanCommit self.old ready (S.binder_of rule.now) (S.body_of rule.now) after }
        requires fits { S.fits rule.now (operands_of ready) (state_of (state_in self.old)) (names_after after) }
        ensures step { outcome_by (object_step (members_in self.old) (S.binder_of rule.now) (arguments_of ready))
            ≡ Some result }
        ensures answer { IsAnswerIn (tag_of self.old).functions (tag_of self.old).limit result }
        ensures journal { journal_of self.new
            ≡ journal_of self.old ++ entry_by (head_of ready) (arguments_of ready) result ∷ [] }
        ensures idles { idles_of self.new ≡ idles_of self.old }
        ensures tag { tag_of self.new ≡ tag_of self.old }
        ensures table { table_of self.new ≡ table_of self.old }
    {
        let Ready {
            head,
            object: _,
            arguments,
            outcome,
            prepared,
        } = ready;
        let answer = eval(rule.body(), prepared, &mut self.state, after);
        self.journal.push_reserved(Entry {
            pass: head.pass,
            task: head.task,
            binder: head.binder,
            operands: arguments,
            outcome,
        });
        answer
    }
}
