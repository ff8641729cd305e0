//! What all passes of a run share.
ghost use Rattle.std.specs.Prelude.{◌≡◌, ◌<◌, ◌≤◌, [], length, map, take, vec_capacity, All, IfOk};
ghost use Rattle.object_history.specs.Rows.{journal_of};
ghost use Rattle.turn_rows.specs.Passes.{row_count, shared_count, tag_state};
ghost use Rattle.object_history.specs.Histories.{mark_of, tag_with, turns_of, whole_tag_of};
ghost use Rattle.script_program.specs.Programs.{binders_of, functions_of, script_of};

use crate::answer::Answer;
use crate::choosing::Choice;
use crate::closed::Closed;
use crate::gathered::{Gathered, gather};
use crate::mind::Mind;
use crate::operation::{Done, Made, Operation};
use crate::pass::{Drawn, Pass};
use crate::plain::{PlainDone, plain_outcome};
use crate::publishing::publish_bound;
use crate::starting::{new_caches, new_rows, none_known, root_classes};
use crate::turn::Turn;
use answered_operations::Answered;
use binder_cache::Cache;
use dyn_value::{Entry, Value};
use expando_class::ClassTable;
use known_rules::KnownRules;
use meta_object::Language;
use object_history::{ObjectRow, RowTag};
use rule::Rule;
use script_program::Program;
use sqlite_items::Items;
use standard_binders::{Binder, FunTable};
use std::alloc::{AllocError, Global};
use std::sync::Wait;
use turn_rows::{RowPass, Rows};

/// A program, and the objects on which its tasks operate: their classes, and their rows.
#[derive(Drop)]
pub struct Run<'p> {
    pub(crate) program: &'p Program,
    pub(crate) tag: RowTag<'p>,
    pub(crate) table: ClassTable,
    pub(crate) rows: Rows<ObjectRow<'p>>,
    // Of each binder the rules that passes published.
    pub(crate) caches: Vec<Cache<Rule>>,
    // How many passes it has.
    pub(crate) passes: u32,
    // The room for what comes out at the end: the journals, and what each pass drew.
    pub(crate) spare_journals: Vec<Items<Entry>>,
    pub(crate) spare_drawn: Vec<Items<Drawn>>,
    pub ghost binders: { tag.binders.now ≡ binders_of program.now },
    pub ghost cached: { length caches.items ≡ length tag.binders.now },
    pub ghost counted: { tag.functions ≡ length (functions_of program.now) },
    pub ghost tagged: { whole_tag_of (tag_state rows) ≡ tag_with tag table },
    pub ghost roomy: { tag.limit ≤ row_count rows },
    pub ghost spared: { (spare_journals.items ≡ []) × (tag.limit ≤ vec_capacity spare_journals) },
    pub ghost spared_drawn: { (spare_drawn.items ≡ []) × (passes ≤ vec_capacity spare_drawn) },
    pub ghost few_passes: { passes ≤ 8 },
    pub ghost some_passes: { 0 < passes },
    pub ghost shared: { shared_count rows ≡ length (script_of program.now).shared },
}

impl<'p> Run<'p> {
    ghost use Rattle.std.specs.Prelude.{◌≡◌, ◌+◌, ◌^◌, ◌<◌, ◌≤◌, ℕ, true, length, slice_get, None, Some, IfOk, IfSome, OnErr};
    ghost use Rattle.std.specs.List.{AllByRecursion};
    ghost use Rattle.dyn_value.specs.Proper.{IsProperIn};
    ghost use Rattle.object_model.specs.Steps.{on_object};
    ghost use Rattle.rule_model.specs.Soundness.{Suit};
    ghost use Rattle.script_program.specs.Names.{has_short_names};
    ghost use Rattle.dlr_engine.specs.Answers.{IsPlainOutcome};
    ghost use Rattle.standard_binders.specs.Functions.{HaveFewParameters};
    ghost use Rattle.turn_rows.specs.Passes.{log_of, IsPassOf, IsSamePass};
    ghost use Rattle.dlr_engine.specs.Minds.{binds_in, table_in, MayHaveBound};
    ghost use Rattle.known_rules.specs.Adoptions.{setting};
    ghost use Rattle.known_rules.specs.Knowledge.{IsChosen, published_in, rules_in, setting_of};
    ghost use Rattle.dlr_engine.specs.Knowing.{kept_in, level_of, ComesToKnow, IsChosenFor, IsOwnRule, LearnsAtMost, Uses};
    ghost use Rattle.dlr_engine.specs.Operations.{on_object_of, BindsAt, HasMade, HasMadeAnswer, IsChosenThere, IsIdle};
    ghost use Rattle.dlr_engine.specs.Passes.{has_others};
    ghost use Rattle.dlr_engine.specs.Tagged.{AreProperBy};

    /// Answers an operation on an object: a known rule is chosen by the class that the pass last saw there, the operation
    /// is made in a turn, and where it was bound there, its rule is published. Where memory is refused, nothing is entered.
    pub(crate) fn answer_on<L: Language, R: Wait>(
        &self,
        rt: &R,
        alloc: Global,
        lang: &L,
        rows: &mut RowPass<ObjectRow<'p>>,
        mind: &mut Mind,
        known: &mut KnownRules,
        class: &mut u128,
        dropped: &mut u64,
        cache: &Cache<Rule>,
        operation: Operation<'_>,
    ) -> Result<Answer, AllocError>
        requires own { IsPassOf self.now.rows rows.old }
        requires known { table_in mind.old ≡ self.now.table }
        requires few { HaveFewParameters (L.functions lang.now) }
        requires setting { setting_of known.old
            ≡ setting cache.now operation.binder.now (L.functions lang.now) self.now.table }
        requires functions { self.now.tag.functions ≡ length (L.functions lang.now) }
        requires calls { (log_of rows.old).calls < 2 ^ 60 }
        requires few_binds { binds_in mind.old < 2 ^ 60 }
        requires few_dropped { dropped.old < 2 ^ 60 }
        requires binder { slice_get self.now.tag.binders.now operation.head.binder ≡ Some operation.binder.now }
        requires number { operation.head.pass ≡ (log_of rows.old).number }
        requires object { operation.object < self.now.tag.limit }
        requires proper { AreProperBy self.now.tag operation.operands.now }
        ensures own { IsPassOf self.now.rows rows.new }
        ensures same { IsSamePass rows.old rows.new }
        ensures calls { (log_of rows.new).calls ≡ (log_of rows.old).calls + 1 }
        ensures draws { (log_of rows.new).draws ≡ (log_of rows.old).draws }
        ensures made { IfOk result (HasMadeAnswer self.now.tag operation.entry (log_of rows.old) (log_of rows.new)) }
        ensures uses { IfOk result (λ a.
            Uses (has_others self.now) a.level (kept_in known.old dropped.old) (kept_in known.new dropped.new)
            (IsChosenThere self.now.tag.binders.now (on_object_of operation.entry) operation.entry.operands.now
            (log_of rows.new) a.level a.place)) }
        ensures refused { OnErr result (IsIdle (log_of rows.old) (log_of rows.new)) }
        ensures learned { OnErr result (
            LearnsAtMost (has_others self.now) (kept_in known.old dropped.old) (kept_in known.new dropped.new)) }
        ensures known { table_in mind.new ≡ table_in mind.old }
        ensures setting { setting_of known.new ≡ setting_of known.old }
        ensures binds { IfOk result (λ a. BindsAt a.level (binds_in mind.old) (binds_in mind.new)) }
        ensures may { OnErr result (MayHaveBound mind.old mind.new) }
        ensures dropped { dropped.new ≤ dropped.old + 1 }
    {
        let object = operation.object;
        let rule = known.find(cache, operation.operands, *class);
        let Done { made, bound } = self.turn_on(
            rt, alloc, lang, rows, mind, known, class, cache, rule, operation,
        )?;
        let level = publish_bound(rt, known, cache, dropped, bound);
        let Made { outcome, place } = made;
        Ok(Answer {
            outcome,
            level,
            row: Some(object),
            place,
        })
    }

    /// Makes the operation in a turn on its object's row, by a known rule that passes there, or by one that is bound there.
    /// Where memory is refused, nothing is entered.
    fn turn_on<L: Language, R: Wait>(
        &self,
        rt: &R,
        alloc: Global,
        lang: &L,
        rows: &mut RowPass<ObjectRow<'p>>,
        mind: &mut Mind,
        known: &mut KnownRules,
        class: &mut u128,
        cache: &Cache<Rule>,
        rule: Option<u64>,
        operation: Operation<'_>,
    ) -> Result<Done, AllocError>
        requires own { IsPassOf self.now.rows rows.old }
        requires known { table_in mind.old ≡ self.now.table }
        requires few { HaveFewParameters (L.functions lang.now) }
        requires setting { setting_of known.old
            ≡ setting cache.now operation.binder.now (L.functions lang.now) self.now.table }
        requires first { IsChosen (rules_in known.old) operation.operands.now class.old rule }
        requires functions { self.now.tag.functions ≡ length (L.functions lang.now) }
        requires calls { (log_of rows.old).calls < 2 ^ 60 }
        requires few_binds { binds_in mind.old < 2 ^ 60 }
        requires binder { slice_get self.now.tag.binders.now operation.head.binder ≡ Some operation.binder.now }
        requires number { operation.head.pass ≡ (log_of rows.old).number }
        requires object { operation.object < self.now.tag.limit }
        requires proper { AreProperBy self.now.tag operation.operands.now }
        ensures own { IsPassOf self.now.rows rows.new }
        ensures same { IsSamePass rows.old rows.new }
        ensures calls { (log_of rows.new).calls ≡ (log_of rows.old).calls + 1 }
        ensures draws { (log_of rows.new).draws ≡ (log_of rows.old).draws }
        ensures made { IfOk result (λ d. HasMade self.now.tag operation.entry (log_of rows.old) (log_of rows.new) d.made) }
        ensures chosen { IfOk result (λ d.
            IsChosenThere self.now.tag.binders.now (on_object_of operation.entry) operation.entry.operands.now
            (log_of rows.new) (level_of d.bound) d.made.place (rules_in known.new)) }
        ensures among { ComesToKnow (has_others self.now) (rules_in known.old) (rules_in known.new) }
        ensures published { published_in known.new ≡ published_in known.old }
        ensures rule { IfOk result (λ d.
            IfSome d.bound (IsOwnRule (L.functions lang.now) self.now.table operation.entry.binder.now)) }
        ensures refused { OnErr result (IsIdle (log_of rows.old) (log_of rows.new)) }
        ensures known { table_in mind.new ≡ table_in mind.old }
        ensures setting { setting_of known.new ≡ setting_of known.old }
        ensures binds { IfOk result (λ d. BindsAt (level_of d.bound) (binds_in mind.old) (binds_in mind.new)) }
        ensures may { OnErr result (MayHaveBound mind.old mind.new) }
    {
        let object = operation.object;
        let first = Choice {
            class: *class,
            rule,
        };
        let mut made = None;
        let mut turn = Turn {
            alloc,
            rt,
            lang,
            table: &self.table,
            tag: self.tag,
            operation,
            cache,
            first,
            has_others: self.passes != 1,
            mind,
            known,
            class,
            made: &mut made,
        };
        self.rows.turn(rt, rows, object, &mut turn);
        let Turn {
            alloc: _,
            rt: _,
            lang: _,
            table: _,
            tag: _,
            operation: _,
            cache: _,
            first: _,
            has_others: _,
            mind: _,
            known: _,
            class: _,
            made: _,
        } = turn;
        match made {
            Some(made) => made,
            None => unreachable!(),
        }
    }

    /// Answers an operation that looks at no object; where it was bound, its rule is published. The one error is want of
    /// memory.
    pub(crate) fn answer_plain<L: Language, R: Wait>(
        &self,
        rt: &R,
        alloc: Global,
        lang: &L,
        mind: &mut Mind,
        known: &mut KnownRules,
        dropped: &mut u64,
        cache: &Cache<Rule>,
        binder: &Binder,
        operands: &[Value],
    ) -> Result<Answer, AllocError>
        requires known { table_in mind.old ≡ self.now.table }
        requires few_binds { binds_in mind.old < 2 ^ 60 }
        requires few_dropped { dropped.old < 2 ^ 60 }
        requires few { HaveFewParameters (L.functions lang.now) }
        requires setting { setting_of known.old ≡ setting cache.now binder.now (L.functions lang.now) self.now.table }
        requires none { on_object binder.now operands.now ≡ None }
        requires short_names { has_short_names binder.now ≡ true }
        requires suit { Suit binder.now operands.now }
        requires proper { (objects : ℕ)
            × AllByRecursion (IsProperIn (length (L.functions lang.now)) objects) operands.now }
        ensures outcome { IfOk result (λ a. IsPlainOutcome (L.functions lang.now) binder.now operands.now a.outcome) }
        ensures row { IfOk result (λ a. a.row ≡ None) }
        ensures place { IfOk result (λ a. a.place ≡ 0) }
        ensures uses { IfOk result (λ a.
            Uses (has_others self.now) a.level (kept_in known.old dropped.old) (kept_in known.new dropped.new)
            (λ knew. IsChosenFor a.level knew operands.now 0)) }
        ensures learned { OnErr result (
            LearnsAtMost (has_others self.now) (kept_in known.old dropped.old) (kept_in known.new dropped.new)) }
        ensures known { table_in mind.new ≡ table_in mind.old }
        ensures setting { setting_of known.new ≡ setting_of known.old }
        ensures binds { IfOk result (λ a. BindsAt a.level (binds_in mind.old) (binds_in mind.new)) }
        ensures may { OnErr result (MayHaveBound mind.old mind.new) }
        ensures dropped { dropped.new ≤ dropped.old + 1 }
    {
        let PlainDone { outcome, bound } = plain_outcome(
            rt,
            alloc,
            lang,
            mind,
            known,
            cache,
            &self.table,
            self.passes != 1,
            binder,
            operands,
        )?;
        let level = publish_bound(rt, known, cache, dropped, bound);
        Ok(Answer {
            outcome,
            level,
            row: None,
            place: 0,
        })
    }
}

impl<'p> Run<'p> {
    ghost use Rattle.std.specs.Prelude.{◌≡◌, ◌<◌, ℕ, length};
    ghost use Rattle.std.specs.Prelude.{map};
    ghost use Rattle.dlr_engine.specs.Closing.{drawn_in, journals_in, levels_in, AreDrawn, IsClosedRow};
    ghost use Rattle.dlr_engine.specs.Levels.{all_levels};
    ghost use Rattle.dlr_engine.specs.Passes.{drawn_of, levels_of, limit_in, shared_in, ArePasses};

    /// The journals of all objects, and what the passes drew and counted.
    pub(crate) fn close(self, passes: Vec<Pass<'p>>) -> Closed
        requires passes { ArePasses self passes.items }
        ensures count { length (journals_in result) ≡ limit_in self.entry }
        ensures rows { (row : ℕ) → row < limit_in self.entry
            → IsClosedRow self.entry.tag.binders.now passes.entry.items row (journals_in result) }
        ensures drawn { drawn_in result ≡ map drawn_of passes.entry.items }
        ensures numbers { AreDrawn (shared_in self.entry) passes.entry.items }
        ensures levels { levels_in result ≡ all_levels (map levels_of passes.entry.items) }
    {
        let Run {
            program: _,
            tag,
            table: _,
            rows,
            caches: _,
            passes: _,
            spare_journals,
            spare_drawn,
        } = self;
        let Gathered {
            rows: all,
            drawn,
            levels,
        } = gather(&rows, passes, spare_drawn);
        let states = rows.close(all);
        Closed {
            journals: Items::from_vec(journals_of(states, spare_journals, tag.limit as usize)),
            drawn: Items::from_vec(drawn),
            levels,
        }
    }
}

/// The journals of so many of these objects, in room that is there already.
fn journals_of(
    states: Vec<ObjectRow<'_>>,
    mut journals: Vec<Items<Entry>>,
    count: usize,
) -> Vec<Items<Entry>>
    requires some { count ≤ length states.items }
    requires empty { journals.items ≡ [] }
    requires room { count ≤ vec_capacity journals }
    ensures { result.items ≡ map journal_of (take count states.entry.items) }
{
    for state in states {
        if journals.len() < count {
            journals.push_reserved(Items::from_vec(state.into_journal()));
        }
    }
    journals
}

impl<'p> Run<'p> {
    ghost use Rattle.std.specs.Prelude.{◌≡◌, ◌+◌, ◌<◌, ◌≤◌, length, IfOk, OnErr, OnOk};
    ghost use Rattle.dlr_engine.specs.Passes.{limit_in, made_in, number_of, passes_in, program_in, shared_in, AreNew, ArePasses, IsNew, IsPartOf, IsUntaken};

    /// A run of the program, with so many objects beside the shared ones, on which nothing was done, that is to have so
    /// many passes, and the first of them.
    pub(crate) fn new(
        alloc: Global,
        program: &'p Program,
        funs: &FunTable,
        objects: u32,
        passes: u32,
    ) -> Result<(Run<'p>, Pass<'p>), AllocError>
        requires objects { objects ≤ 4032 }
        requires some { 0 < passes }
        requires few_passes { passes ≤ 8 }
        requires functions { funs.now.params ≡ functions_of program.now }
        ensures program { IfOk result (λ r. program_in r.0 ≡ program.now) }
        ensures limit { IfOk result (λ r. limit_in r.0 ≡ shared_in r.0 + objects) }
        ensures passes { IfOk result (λ r. passes_in r.0 ≡ passes) }
        ensures own { IfOk result (λ r. IsPartOf r.0 r.1) }
        ensures first { IfOk result (λ r. (number_of r.1 ≡ 0) × (made_in r.1 ≡ 1)) }
        ensures new { IfOk result (λ r. IsNew r.1) }
    {
        let shared = program.shared().len() as u32;
        let tag = RowTag {
            binders: program.binders(),
            functions: funs.len(),
            limit: shared + objects,
        };
        let table = ClassTable::new(alloc)?;
        let caches = new_caches(alloc, tag.binders.len())?;
        let mind = Mind::new(alloc, &table)?;
        let known = none_known(alloc, caches.as_slice(), tag.binders, funs, &table)?;
        let classes = root_classes(alloc, tag.limit)?;
        let answered = Answered::new(alloc)?;
        let spare_journals = Vec::with_capacity(alloc, tag.limit as usize)?;
        let spare_drawn = Vec::with_capacity(alloc, passes as usize)?;
        let states = new_rows(alloc, tag, &table, row_count_for(tag.limit))?;
        let (rows, first) = Rows::new(alloc, states, shared)?;
        let run = Run {
            program,
            tag,
            table,
            rows,
            caches,
            passes,
            spare_journals,
            spare_drawn,
        };
        Ok((run, Pass::new(alloc, first, mind, known, classes, answered)))
    }

    /// All its passes, which have done nothing. The one error is want of memory.
    pub(crate) fn passes_from(
        &self,
        alloc: Global,
        funs: &FunTable,
        mut first: Pass<'p>,
    ) -> Result<Vec<Pass<'p>>, AllocError>
        requires functions { funs.now.params ≡ functions_of (program_in self.now) }
        requires own { IsPartOf self.now first }
        requires first { (number_of first ≡ 0) × (made_in first ≡ 1) }
        requires new { IsNew first }
        ensures passes { IfOk result (λ ps. ArePasses self.now ps.items) }
        ensures new { IfOk result (λ ps. AreNew ps.items) }
    {
        let mut passes = Vec::with_capacity(alloc, self.passes as usize)?;
        for _number in 1..self.passes {
            passes.push_reserved(self.split(alloc, funs, &mut first)?);
        }
        passes.insert(0, first)?;
        Ok(passes)
    }

    /// One more pass, which has seen, made and drawn nothing; its number is the count of the passes made before it.
    /// Only the first pass makes others, and it is otherwise as before. The one error is want of memory.
    fn split(
        &self,
        alloc: Global,
        funs: &FunTable,
        pass: &mut Pass<'p>,
    ) -> Result<Pass<'p>, AllocError>
        requires functions { funs.now.params ≡ functions_of (program_in self.now) }
        requires own { IsPartOf self.now pass.old }
        requires first { number_of pass.old ≡ 0 }
        requires few { made_in pass.old < 8 }
        ensures own { IsPartOf self.now pass.new }
        ensures untaken { IsUntaken pass.old pass.new }
        ensures made { OnOk result (made_in pass.new ≡ made_in pass.old + 1) }
        ensures refused { OnErr result (made_in pass.new ≡ made_in pass.old) }
        ensures other { IfOk result (IsPartOf self.now) }
        ensures number { IfOk result (λ p. (number_of p ≡ made_in pass.old) × (made_in p ≡ 0)) }
        ensures new { IfOk result IsNew }
    {
        let mind = Mind::new(alloc, &self.table)?;
        let known = none_known(
            alloc,
            self.caches.as_slice(),
            self.tag.binders,
            funs,
            &self.table,
        )?;
        let classes = root_classes(alloc, self.tag.limit)?;
        let answered = Answered::new(alloc)?;
        let rows = self.rows.split(&mut pass.rows);
        Ok(Pass::new(alloc, rows, mind, known, classes, answered))
    }
}

/// So many rows for so many objects: there is one where there are none.
fn row_count_for(limit: u32) -> usize
    requires { limit ≤ 4096 }
    ensures some { 0 < result }
    ensures all { limit ≤ result }
    ensures few { result ≤ 4096 }
{
    if limit == 0 { 1 } else { limit as usize }
}
