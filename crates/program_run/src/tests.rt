use crate::run_task;
use dyn_value::{Fault, Outcome, Value};
use script_program::{Program, read};
use sqlite_items::Items;
use std::alloc::{AllocError, Global};
use std::sync::Wait;
use std::test::Fail;
use task_walk::{Ended, Printed, World};

/// A world that draws the numbers of new objects, one after the other, and has no memory for operations.
#[derive(Drop)]
struct Drawing<'a> {
    program: &'a Program,
    task: u32,
    limit: u32,
    next: u32,
    drawn: Items<u32>,
    count: u64,
}

impl World for Drawing<'_> {
    ghost use Rattle.std.specs.Prelude.{[]};
    ghost use Rattle.script_program.specs.Plans.{plan_of};

    type Home = ();

    ghost tale = { λ w. record {
      by = record { plan = plan_of w.program.now; pass = 0; task = w.task; limit = w.limit };
      entries = λ object. [];
      drawn = w.drawn;
      count = w.count;
    } };

    ghost answered = { λ w home operations. Unit {0} };

    fn operate<R: Wait>(
        &mut self,
        _rt: &R,
        _alloc: Global,
        _site: u32,
        _operands: &[Value],
    ) -> Result<Outcome, AllocError> {
        Err(AllocError)
    }

    fn draw(&mut self) -> Result<Option<u32>, AllocError> {
        let number = self.next.min(self.limit);
        self.drawn.push(number)?;
        self.count += 1;
        if number < self.limit {
            self.next = number + 1;
            Ok(Some(number))
        } else {
            Ok(None)
        }
    }
}

const SCRIPT: &str = "shared s; task one { print 1; }
task two { let o = new(); print o; print \"two\"; return nil; print 3; }
task three { try { let o = new(); print o; let p = new(); print p; } catch e { print e; } print s; }
task four { print 4; new(); new(); print 5; }
task five { print 6; print (1 + 2); print 7; }";

/// A task of the script, how many objects there may be, and what it prints.
static RUNS: [(u32, u32, &[&str]); 5] = [
    (0, 1, &["1"]),
    (1, 2, &["obj#1", "two"]),
    (2, 2, &["obj#1", "HeapFull", "obj#0"]),
    (3, 2, &["4"]),
    (4, 2, &["6"]),
];

/// Whether these are the lines.
fn are_lines(printed: Printed, lines: &[&str]) -> bool {
    let printed = printed.into_lines();
    printed.len() == lines.len()
        && printed
            .as_slice()
            .iter()
            .zip(lines)
            .all(|(line, want)| line.as_str() == *want)
}

#[test]
fn tasks_print_and_end(rt: HostRuntime) -> Result<(), Fail> {
    let alloc = rt.alloc();
    let program = read(alloc, SCRIPT.as_bytes())?;
    for &(task, limit, lines) in &RUNS {
        assert!(rt; (task as usize) < program.script().tasks.len());
        assert!(rt; program.script().shared.len() <= limit as usize);
        let mut world = Drawing {
            program: &program,
            task,
            limit,
            next: 1,
            drawn: Items::new(alloc),
            count: 0,
        };
        let mut printed = Printed::new(alloc);
        match run_task(&rt, alloc, &program, task, 9, &mut world, &mut printed) {
            Ok(Ended::Done) => assert!(rt; task < 3, "task {task}"),
            Ok(Ended::Faulted(fault)) => assert!(rt; task == 3 && fault.same(&Fault::HeapFull)),
            Err(AllocError) => assert!(rt; task == 4, "task {task}"),
        }
        assert!(rt; are_lines(printed, lines), "task {task}");
    }
    Ok(())
}
