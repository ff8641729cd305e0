//! The engine.
ghost use Rattle.std.specs.Prelude.{◌≡◌};
ghost use Rattle.script_program.specs.Programs.{functions_of};
ghost use Rattle.standard_binders.specs.Functions.{HaveFewParameters};
ghost use Rattle.dlr_engine.specs.BindingProps.{few_prop};

use crate::answer::Answer;
use crate::closed::Closed;
use crate::operation::Operation;
use crate::pass::{Drawn, Pass};
use crate::run::Run;
use dyn_value::Value;
use meta_object::Language;
use object_history::EntryHead;
use script_program::Program;
use standard_binders::Binder;
use std::alloc::{AllocError, Global};
use std::sync::Wait;

/// The engine of a run: passes operate on its objects beside each other, and draw the numbers of new ones. It binds by
/// its language.
#[derive(Drop)]
pub struct Engine<'p, L: Language + Drop> {
    run: Run<'p>,
    lang: L,
    ghost functions: { L.functions lang ≡ functions_of run.program.now },
    ghost few: { HaveFewParameters (functions_of run.program.now) } by { few_prop (functions_of run.program.now) },
}

impl<'p, L: Language + Drop> Engine<'p, L> {
    ghost use Rattle.std.specs.Prelude.{◌≡◌, ◌≢◌, ◌+◌, ◌++◌, ◌∷◌, [], ◌^◌, ◌<◌, ◌≤◌, ℕ, true, length, map, IfOk, None, OnErr, OnOk, Some, slice_get};
    ghost use Rattle.script_program.specs.Names.{has_short_names};
    ghost use Rattle.script_program.specs.Programs.{script_of};
    ghost use Rattle.object_model.specs.Steps.{on_object};
    ghost use Rattle.rule_model.specs.Soundness.{Suit};
    ghost use Rattle.task_code.specs.Fits.{IsSite};
    ghost use Rattle.answered_operations.specs.Operations.{operation_at};
    ghost use Rattle.dlr_engine.specs.Draws.{drawn_for};
    ghost use Rattle.dlr_engine.specs.Engines.{run_of};
    ghost use Rattle.dlr_engine.specs.Knowing.{IsChosenFor, Uses};
    ghost use Rattle.dlr_engine.specs.Operations.{on_object_of, AreProper, IsAnswered, IsChosenAt, IsChosenThere, IsCounted, IsPlainAnswer, IsProperAnswer, IsRefused, IsTaken, HasMadeAnswer};
    ghost use Rattle.dlr_engine.specs.Passes.{answered_of, calls_of, drawn_of, has_others, kept_at, levels_of, limit_in, log_in, made_in, number_of, passes_in, plan_in, program_in, shared_in, AreNew, ArePasses, IsDrawnBy, IsPartOf, IsPassOf, IsSamePass, IsUntaken, KeepsRulesAt};
    ghost use Rattle.dlr_engine.specs.Levels.{all_levels};
    ghost use Rattle.dlr_engine.specs.Closing.{drawn_in, journals_in, levels_in, AreDrawn, IsClosedRow};

    /// An engine for a program, with so many objects beside the shared ones, and its passes, which have done nothing.
    ///
    /// All that [`close`](Engine::close) fills is taken here. The one error is want of memory.
    pub fn start(
        alloc: Global,
        program: &'p Program,
        lang: L,
        objects: u32,
        passes: u32,
    ) -> Result<(Engine<'p, L>, Vec<Pass<'p>>), AllocError>
        requires objects { objects ≤ 4032 }
        requires some { 0 < passes }
        requires few_passes { passes ≤ 8 }
        requires functions { L.functions lang ≡ functions_of program.now }
        requires few { HaveFewParameters (L.functions lang) }
        ensures program { IfOk result (λ r. program_in (run_of r.0) ≡ program.now) }
        ensures limit { IfOk result (λ r. limit_in (run_of r.0) ≡ shared_in (run_of r.0) + objects) }
        ensures count { IfOk result (λ r. passes_in (run_of r.0) ≡ passes) }
        ensures passes { IfOk result (λ r. ArePasses (run_of r.0) r.1.items) }
        ensures new { IfOk result (λ r. AreNew r.1.items) }
    {
        let (run, first) = Run::new(alloc, program, lang.funs(), objects, passes)?;
        let passes = run.passes_from(alloc, lang.funs(), first)?;
        Ok((Engine { run, lang }, passes))
    }

    /// The program for which it answers.
    pub fn program(&self) -> &'p Program
        ensures { result.now ≡ program_in (run_of self.now) }
    {
        self.run.program
    }

    /// How many objects there may be.
    pub fn limit(&self) -> u32
        ensures { result ≡ limit_in (run_of self.now) }
    {
        self.run.tag.limit
    }

    /// Answers the operation of a site.
    ///
    /// One on an object stands once in the object's history, after all that the pass had seen there: its outcome is
    /// that of the operation on the members there. Any other gives what its operands determine. The one error is want
    /// of memory: then nothing was made.
    pub fn operate<R: Wait>(
        &self,
        rt: &R,
        alloc: Global,
        pass: &mut Pass<'p>,
        task: u32,
        site: u32,
        operands: &[Value],
    ) -> Result<Answer, AllocError>
        requires own { IsPassOf (run_of self.now) pass.old }
        requires few { calls_of pass.old < 2 ^ 60 }
        requires site { IsSite (plan_in (run_of self.now)) site (length operands.now) }
        requires proper { AreProper (run_of self.now) operands.now }
        ensures own { IsPassOf (run_of self.now) pass.new }
        ensures taken { IsTaken pass.old pass.new }
        ensures answered { IfOk result (
            IsAnswered (plan_in (run_of self.now)) task site operands.now pass.old pass.new) }
        ensures proper { IfOk result (IsProperAnswer (run_of self.now)) }
        ensures counted { IfOk result (λ a. IsCounted a.level pass.old pass.new) }
        ensures chosen { IfOk result (IsChosenAt (run_of self.now) site operands.now pass.old pass.new) }
        ensures listed { OnOk result (
            answered_of pass.new ≡ answered_of pass.old ++ operation_at site operands.now ∷ []) }
        ensures refused { OnErr result (IsRefused (run_of self.now) pass.old pass.new) }
    {
        let binder = self.run.program.binder_of(site);
        let number = self.run.program.sites()[site as usize];
        let answer = match object_of(binder, operands) {
            Some((object, arguments)) => {
                let head = EntryHead {
                    pass: pass.number(),
                    task,
                    binder: number,
                };
                let operation = Operation {
                    binder,
                    head,
                    object,
                    operands,
                    arguments,
                };
                self.operate_on(rt, alloc, pass, operation)?
            }
            None => self.operate_plain(rt, alloc, pass, number, binder, operands)?,
        };
        pass.answered.add(site, operands);
        Ok(answer)
    }

    /// Makes an operation on an object in a turn, and counts it.
    fn operate_on<R: Wait>(
        &self,
        rt: &R,
        alloc: Global,
        pass: &mut Pass<'p>,
        operation: Operation<'_>,
    ) -> Result<Answer, AllocError>
        requires own { IsPartOf (run_of self.now) pass.old }
        requires few { calls_of pass.old < 2 ^ 60 }
        requires binder { slice_get self.now.run.tag.binders.now operation.head.binder ≡ Some operation.binder.now }
        requires number { operation.head.pass ≡ number_of pass.old }
        requires object { operation.object < limit_in (run_of self.now) }
        requires proper { AreProper (run_of self.now) operation.operands.now }
        ensures own { IsPartOf (run_of self.now) pass.new }
        ensures taken { IsTaken pass.old pass.new }
        ensures made { IfOk result (
            HasMadeAnswer self.now.run.tag operation.entry (log_in pass.old) (log_in pass.new)) }
        ensures counted { IfOk result (λ a. IsCounted a.level pass.old pass.new) }
        ensures uses { IfOk result (λ a. let n = operation.entry.head.binder in
            Uses (has_others (run_of self.now)) a.level (kept_at pass.old n) (kept_at pass.new n)
            (IsChosenThere self.now.run.tag.binders.now (on_object_of operation.entry) operation.entry.operands.now
            (log_in pass.new) a.level a.place)) }
        ensures others { (n : ℕ) → n ≢ operation.entry.head.binder → KeepsRulesAt pass.old pass.new n }
        ensures listed { answered_of pass.new ≡ answered_of pass.old }
        ensures refused { OnErr result (IsRefused (run_of self.now) pass.old pass.new) }
    {
        pass.calls += 1;
        let number = operation.head.binder as usize;
        let object = operation.object as usize;
        let answer = self.run.answer_on(
            rt,
            alloc,
            &self.lang,
            &mut pass.rows,
            &mut pass.mind,
            &mut pass.known[number],
            &mut pass.classes[object],
            &mut pass.dropped,
            &self.run.caches[number],
            operation,
        )?;
        pass.levels.raise(answer.level);
        Ok(answer)
    }

    /// Answers an operation that looks at no object, and counts it.
    fn operate_plain<R: Wait>(
        &self,
        rt: &R,
        alloc: Global,
        pass: &mut Pass<'p>,
        number: u32,
        binder: &Binder,
        operands: &[Value],
    ) -> Result<Answer, AllocError>
        requires own { IsPartOf (run_of self.now) pass.old }
        requires few { calls_of pass.old < 2 ^ 60 }
        requires binder { slice_get self.now.run.tag.binders.now number ≡ Some binder.now }
        requires none { on_object binder.now operands.now ≡ None }
        requires short_names { has_short_names binder.now ≡ true }
        requires suit { Suit binder.now operands.now }
        requires proper { AreProper (run_of self.now) operands.now }
        ensures own { IsPartOf (run_of self.now) pass.new }
        ensures taken { IsTaken pass.old pass.new }
        ensures answered { IfOk result (IsPlainAnswer (plan_in (run_of self.now)) binder.now operands.now) }
        ensures log { log_in pass.new ≡ log_in pass.old }
        ensures proper { IfOk result (IsProperAnswer (run_of self.now)) }
        ensures counted { IfOk result (λ a. IsCounted a.level pass.old pass.new) }
        ensures uses { IfOk result (λ a.
            Uses (has_others (run_of self.now)) a.level (kept_at pass.old number) (kept_at pass.new number)
            (λ knew. IsChosenFor a.level knew operands.now 0)) }
        ensures others { (n : ℕ) → n ≢ number → KeepsRulesAt pass.old pass.new n }
        ensures listed { answered_of pass.new ≡ answered_of pass.old }
        ensures refused { OnErr result (IsRefused (run_of self.now) pass.old pass.new) }
    {
        pass.calls += 1;
        let answer = self.run.answer_plain(
            rt,
            alloc,
            &self.lang,
            &mut pass.mind,
            &mut pass.known[number as usize],
            &mut pass.dropped,
            &self.run.caches[number as usize],
            binder,
            operands,
        )?;
        pass.levels.raise(answer.level);
        Ok(answer)
    }

    /// Draws the number of a new object for a task: the pass has seen and made what it had. Where memory is refused, no
    /// number is drawn.
    pub fn draw(&self, pass: &mut Pass<'p>, task: u32) -> Result<u64, AllocError>
        requires own { IsPassOf (run_of self.now) pass.old }
        requires few { calls_of pass.old < 2 ^ 60 }
        ensures own { IsPassOf (run_of self.now) pass.new }
        ensures same { IsSamePass pass.old pass.new }
        ensures drawn { IfOk result (λ n. IsDrawnBy (drawn_for task n) pass.old pass.new) }
        ensures refused { OnErr result (IsUntaken pass.old pass.new) }
        ensures alone { IfOk result (λ n. made_in pass.old ≡ 1
            → n ≡ shared_in (run_of self.now) + length (drawn_of pass.old)) }
    {
        pass.drawn.reserve(1)?;
        pass.calls += 1;
        let number = self.run.rows.draw(&mut pass.rows);
        pass.drawn.push_reserved(Drawn { task, number });
        Ok(number)
    }

    /// What the run came to, from all its passes.
    ///
    /// Each object has its one legal history: what each pass has seen of it is a beginning, the entries of each pass
    /// are those that it made, in order, and there are no others. Together the passes drew the numbers from the count
    /// of the shared objects up to some last one, each once. It takes no memory.
    pub fn close(self, passes: Vec<Pass<'p>>) -> Closed
        requires passes { ArePasses (run_of self) passes.items }
        ensures count { length (journals_in result) ≡ limit_in (run_of self.entry) }
        ensures rows { (row : ℕ) → row < limit_in (run_of self.entry)
            → IsClosedRow (plan_in (run_of self.entry)).binders passes.entry.items row (journals_in result) }
        ensures drawn { drawn_in result ≡ map drawn_of passes.entry.items }
        ensures numbers { AreDrawn (shared_in (run_of self.entry)) passes.entry.items }
        ensures levels { levels_in result ≡ all_levels (map levels_of passes.entry.items) }
    {
        let Engine { run, lang: _ } = self;
        run.close(passes)
    }
}

ghost use Rattle.std.specs.Prelude.{None, Some, MatchOption};
ghost use Rattle.object_model.specs.Steps.{on_object};

/// The number of the object that the operation is on and the operands after it, where it is one on an object.
fn object_of<'a>(binder: &Binder, operands: &'a [Value]) -> Option<(u32, &'a [Value])>
    ensures { MatchOption result (on_object binder.now operands.now ≡ None)
        (λ o. on_object binder.now operands.now ≡ Some (record { object = o.0; operands = o.1.now })) }
{
    match operands {
        [Value::Obj(object), rest @ ..] if binder.is_on_members() => Some((*object, rest)),
        _ => None,
    }
}
