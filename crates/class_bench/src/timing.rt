//! How long adds and look-ups take.
ghost use Rattle.std.specs.Prelude.{◌≡◌, ◌<◌, ◌≤◌, All};
ghost use Rattle.expando_class.specs.Pass.{IsPassOf};
ghost use Rattle.class_bench.specs.Growths.{IsGrowthOf};

use crate::growth::{Growth, learn};
use expando_class::{ClassPass, ClassTable};
use std::io;
use std::io::ErrorKind;
use std::sync::Wait;
use std::time::CpuClock;

// Nanoseconds for each growth in each round, of the processor time since the start.
fn share(rt: &impl CpuClock, start: u128, growths: &[Growth], rounds: u32) -> io::Result<u128> {
    let time = rt.thread_cpu_time()?.as_nanos().saturating_sub(start);
    Ok(time / (growths.len() as u128 * u128::from(rounds)).max(1))
}

/// Of an add of a known list.
pub fn time_adds<R: Wait + CpuClock>(
    rt: &R,
    table: &ClassTable,
    pass: &mut ClassPass,
    growths: &[Growth],
    rounds: u32,
) -> io::Result<u128>
    requires pass { IsPassOf table.now pass.old }
    requires growths { All (IsGrowthOf table.now) growths.now }
{
    let start = rt.thread_cpu_time()?.as_nanos();
    for _round in 0..rounds {
        learn(rt, table, pass, growths)?;
    }
    share(rt, start, growths, rounds)
}

// How many of the classes to which these grow have the name.
fn count_of_named(table: &ClassTable, growths: &[Growth]) -> usize
    requires { All (IsGrowthOf table.now) growths.now }
{
    growths
        .iter()
        .filter(|growth| table.place_of(&growth.to, &growth.name).is_some())
        .count()
}

/// Of a look-up of the last name of a class.
pub fn time_look_ups(
    rt: &impl CpuClock,
    table: &ClassTable,
    growths: &[Growth],
    rounds: u32,
) -> io::Result<u128>
    requires { All (IsGrowthOf table.now) growths.now }
{
    let start = rt.thread_cpu_time()?.as_nanos();
    for _round in 0..rounds {
        if count_of_named(table, growths) != growths.len() {
            return Err(ErrorKind::NotFound.into());
        }
    }
    share(rt, start, growths, rounds)
}
