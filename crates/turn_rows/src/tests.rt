//! What no clause says: that turns of several threads are had, and the numbers that threads draw.
mod crew;
mod meeting;
mod tally;

use crew::sign_together;
use meeting::meet_in_two_rows;
use std::test::Fail;
use tally::{count_of, draw_together};

/// Two threads sign a row 1,000 times each.
#[test]
fn two_threads_sign(rt: HostRuntime) -> Result<(), Fail> {
    let tallies = sign_together(&rt, rt.alloc(), 2, 1_000)?;
    assert_eq!(rt; tallies.len(), 1);
    let tally = &tallies[0];
    assert_eq!(rt; tally.count, 2_000);
    assert_eq!(rt; tally.signed.len(), 2_000);
    for pass in 0..2 {
        assert_eq!(rt; count_of(pass, tally.signed.as_slice()), 1_000);
    }
    Ok(())
}

/// More threads than processors end in time, since those that wait sleep or yield.
#[test]
fn eight_threads_sign(rt: HostRuntime) -> Result<(), Fail> {
    let tallies = sign_together(&rt, rt.alloc(), 8, 10_000)?;
    assert_eq!(rt; tallies.len(), 1);
    let tally = &tallies[0];
    assert_eq!(rt; tally.count, 80_000);
    assert_eq!(rt; tally.signed.len(), 80_000);
    for pass in 0..8 {
        assert_eq!(rt; count_of(pass, tally.signed.as_slice()), 10_000);
    }
    Ok(())
}

/// Three threads draw 100 numbers each, from 5 on.
#[test]
fn three_threads_draw(rt: HostRuntime) -> Result<(), Fail> {
    let mut numbers = draw_together(&rt, rt.alloc())?;
    numbers.sort()?;
    assert_eq!(rt; numbers.len(), 300);
    let mut expected = 5;
    for number in numbers.as_slice() {
        assert_eq!(rt; *number, expected);
        expected = expected.saturating_add(1);
    }
    Ok(())
}

/// A turn in one row does not wait for a turn in another.
#[test]
fn two_rows_meet(rt: HostRuntime) -> Result<(), Fail> {
    let (first, second) = meet_in_two_rows(&rt, rt.alloc())?;
    assert!(rt; first);
    assert!(rt; second);
    Ok(())
}
