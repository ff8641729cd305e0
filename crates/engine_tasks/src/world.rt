//! What answers the operations of a task.
ghost use Rattle.std.specs.Prelude.{◌≡◌, ◌≤◌, ◌+◌, ◌<◌, ◌^◌, false, length};
ghost use Rattle.std.specs.List.{range_with_len};
ghost use Rattle.dlr_engine.specs.Engines.{run_of};
ghost use Rattle.dlr_engine.specs.PassProps.{is_pass_prop};
ghost use Rattle.dlr_engine.specs.Passes.{calls_of, made_in, numbers_of, shared_in, IsPassOf};

use crate::gate::Gate;
use dlr_engine::{Drawn, Engine, Pass};
use dyn_value::{Outcome, Value};
use fallback::Script;
use script_program::Program;
use sqlite_items::Items;
use standard_binders::Binder;
use std::alloc::{AllocError, Global};
use std::sync::Wait;
use task_walk::World;

/// What answers the operations of a task: a pass of an engine. Where memory was refused once, nothing more is answered.
///
/// Contracts see it by what it tells (`tale_in`). Its home is the engine with the pass as it was at some moment: that
/// it answered operations there (`HasAnswered`) says that the engine is this one, and that so many operations were
/// counted.
#[derive(Drop)]
pub(crate) struct EngineWorld<'e, 'p, G: Gate> {
    engine: &'e Engine<'p, Script>,
    gate: &'e G,
    pass: Pass<'p>,
    task: u32,
    // How many operations on objects it was asked for the task.
    number: u64,
    // How many operations it answered and numbers it drew.
    count: u64,
    wants_memory: bool,
    ghost own: { IsPassOf (run_of engine.now) pass } by { is_pass_prop (run_of engine.now) pass },
    ghost calls: { wants_memory ≡ false → calls_of pass ≤ count },
    ghost asked: { wants_memory ≡ false → number ≤ count },
    ghost plain: { made_in pass ≡ 1
        → numbers_of pass ≡ range_with_len (shared_in (run_of engine.now)) (length (numbers_of pass)) },
}

impl<'e, 'p, G: Gate> EngineWorld<'e, 'p, G> {
    ghost use Rattle.std.specs.Prelude.{drop, IfOk};
    ghost use Rattle.dlr_engine.specs.Passes.{plan_in, program_in, IsNew};
    ghost use Rattle.task_code.specs.Fits.{IsSite};

    /// A world of a pass that has done nothing, which is to [`begin`](EngineWorld::begin) a task.
    pub(crate) fn new(
        engine: &'e Engine<'p, Script>,
        gate: &'e G,
        pass: Pass<'p>,
    ) -> EngineWorld<'e, 'p, G>
        requires own { IsPassOf (run_of engine.now) pass }
        requires new { IsNew pass }
        ensures engine { result.engine.now ≡ engine.now }
        ensures pass { result.pass ≡ pass.entry }
        ensures count { result.count ≡ 0 }
    {
        EngineWorld {
            engine,
            gate,
            pass,
            task: 0,
            number: 0,
            count: 0,
            wants_memory: false,
        }
    }

    /// Goes on with the operations of this task.
    pub(crate) fn begin(&mut self, task: u32)
        ensures engine { self.new.engine.now ≡ self.old.engine.now }
        ensures pass { self.new.pass ≡ self.old.pass }
        ensures task { self.new.task ≡ task }
        ensures count { self.new.count ≡ self.old.count }
    {
        self.task = task;
        self.number = 0;
    }

    /// The program for which it answers.
    pub(crate) fn program(&self) -> &'p Program
        ensures { result.now ≡ program_in (run_of self.now.engine.now) }
    {
        self.engine.program()
    }

    /// How many numbers the pass drew.
    pub(crate) fn drawn_count(&self) -> usize
        ensures { result ≡ length (numbers_of self.now.pass) }
    {
        self.pass.drawn().len()
    }

    /// The numbers that the pass drew after so many. The one error is want of memory.
    pub(crate) fn drawn_after(&self, alloc: Global, count: usize) -> Result<Items<u64>, AllocError>
        requires { count ≤ length (numbers_of self.now.pass) }
        ensures { IfOk result (λ numbers. numbers ≡ drop count (numbers_of self.now.pass)) }
    {
        numbers_in(alloc, &self.pass.drawn()[count..])
    }

    /// The pass.
    pub(crate) fn into_pass(self) -> Pass<'p>
        ensures pass { result ≡ self.entry.pass }
        ensures own { IsPassOf (run_of self.entry.engine.now) result }
        ensures plain { made_in result ≡ 1
            → numbers_of result
            ≡ range_with_len (shared_in (run_of self.entry.engine.now)) (length (numbers_of result)) }
    {
        self.pass
    }

    /// How many operations on objects it was asked with this one, if it is one: then it was at its gate.
    fn at_gate<R: Wait>(&self, rt: &R, site: u32, operands: &[Value]) -> u64
        requires site { IsSite (plan_in (run_of self.now.engine.now)) site (length operands.now) }
        requires few { self.now.number < 2 ^ 60 }
        ensures { result ≤ self.now.number + 1 }
    {
        let binder = self.engine.program().binder_of(site);
        if !is_on_object(binder, operands) {
            return self.number;
        }
        self.gate.at(rt, self.task, self.number);
        self.number + 1
    }
}

impl<'p, G: Gate> World for EngineWorld<'_, 'p, G> {
    ghost use Rattle.engine_tasks.specs.Worlds.{HasAnswered, tale_in};

    type Home = (Engine<'p, Script>, Pass<'p>);

    ghost tale = { λ world. tale_in (run_of world.engine.now) world.task world.count world.pass };

    ghost answered = { λ world home ops. HasAnswered (run_of home.0) home.1 (run_of world.engine.now) world.pass ops };

    fn operate<R: Wait>(
        &mut self,
        rt: &R,
        alloc: Global,
        site: u32,
        operands: &[Value],
    ) -> Result<Outcome, AllocError> {
        if self.wants_memory {
            return Err(AllocError);
        }
        self.number = self.at_gate(rt, site, operands);
        match self
            .engine
            .operate(rt, alloc, &mut self.pass, self.task, site, operands)
        {
            Ok(answer) => {
                self.count += 1;
                Ok(answer.outcome)
            }
            Err(AllocError) => {
                self.wants_memory = true;
                Err(AllocError)
            }
        }
    }

    fn draw(&mut self) -> Result<Option<u32>, AllocError> {
        if self.wants_memory {
            return Err(AllocError);
        }
        match self.engine.draw(&mut self.pass, self.task) {
            Ok(number) => {
                self.count += 1;
                Ok(below(number, self.engine.limit()))
            }
            Err(AllocError) => {
                self.wants_memory = true;
                Err(AllocError)
            }
        }
    }
}

ghost use Rattle.std.specs.Prelude.{map, IfOk, None, MatchOption};
ghost use Rattle.dlr_engine.specs.Draws.{number_drawn};
ghost use Rattle.object_model.specs.Steps.{on_object};

/// The numbers of these draws. The one error is want of memory.
fn numbers_in(alloc: Global, draws: &[Drawn]) -> Result<Items<u64>, AllocError>
    ensures { IfOk result (λ numbers. numbers ≡ map number_drawn draws.now) }
{
    let mut numbers = Items::new(alloc);
    for draw in draws {
        numbers.push(draw.number)?;
    }
    Ok(numbers)
}

/// The number, if it is below the limit.
fn below(number: u64, limit: u32) -> Option<u32>
    ensures { MatchOption result (limit ≤ number) (λ m. (m ≡ number) × (number < limit)) }
{
    if number < u64::from(limit) {
        Some(number as u32)
    } else {
        None
    }
}

/// Whether the operation is one on an object.
fn is_on_object(binder: &Binder, operands: &[Value]) -> bool
    ensures { result ≡ false → on_object binder.now operands.now ≡ None }
{
    match operands {
        [Value::Obj(_), ..] => binder.is_on_members(),
        _ => false,
    }
}
