//! Times turns: `turn_bench TURNS` prints the nanoseconds of a turn for 1, 2, 4 and 8 threads that make so many turns each, on rows of their own and on one row, and of a `Mutex` round the same counter.
#![tactic(auto)]

mod counter;
mod timing;

use std::{env, io};
use timing::{time_mutex, time_turns};

fn main(rt: HostRuntime) -> io::Result<()> {
    let mut words = env::args(&rt)?;
    words.next();
    let Some(word) = words.next() else {
        println!(rt; "turn_bench TURNS")?;
        return Ok(());
    };
    let turns: u32 = word.parse().unwrap_or(1);
    for threads in [1, 2, 4, 8] {
        let own = time_turns(&rt, rt.alloc(), threads, turns, true)?;
        let one = time_turns(&rt, rt.alloc(), threads, turns, false)?;
        let mutex = time_mutex(&rt, rt.alloc(), threads, turns)?;
        println!(rt; "threads {threads}: own rows {own} ns, one row {one} ns, mutex {mutex} ns")?;
    }
    Ok(())
}
