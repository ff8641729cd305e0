//! Times what a pass does with classes that it knows: `class_bench ROUNDS` prints the nanoseconds of an add of a known list and of a look-up by name, at 10, 100 and 700 known classes.
#![tactic(auto)]

mod growth;
mod timing;

use expando_class::ClassTable;
use growth::{grown, learn};
use std::{env, io};
use timing::{time_adds, time_look_ups};

// The classes whose adds and look-ups are timed, known at each count.
const TIMED: usize = 10;

fn main(rt: HostRuntime) -> io::Result<()> {
    let mut words = env::args(&rt)?;
    words.next();
    let Some(word) = words.next() else {
        println!(rt; "class_bench ROUNDS")?;
        return Ok(());
    };
    let rounds: u32 = word.parse().unwrap_or(1);
    let table = ClassTable::new(rt.alloc())?;
    let growths = grown(&rt, rt.alloc(), &table)?;
    for known in [10, 100, 700] {
        let mut pass = table.pass(rt.alloc())?;
        learn(&rt, &table, &mut pass, &growths[..known])?;
        let add = time_adds(&rt, &table, &mut pass, &growths[..TIMED], rounds)?;
        let look_up = time_look_ups(&rt, &table, &growths[..TIMED], rounds)?;
        println!(rt; "classes {known}: add {add} ns, look-up {look_up} ns")?;
    }
    Ok(())
}
