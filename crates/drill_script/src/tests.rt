//! The scripts of some seeds, compared with what another program worked out.
use super::*;
use std::alloc::{AllocError, Global};
use std::test::Fail;

// The script has these lines, the first of them after so many others.
fn has_lines(alloc: Global, seed: u32, before: usize, lines: &[&str]) -> Result<bool, Fail> {
    let script = drill_script(alloc, seed)?;
    let text = std::str::from_utf8(script.as_slice())?;
    let mut found = text.lines().skip(before);
    for line in lines {
        if found.next() != Some(*line) {
            return Ok(false);
        }
    }
    Ok(true)
}

// The length of the script, and a number that each byte and its place change.
fn length_and_sum(alloc: Global, seed: u32) -> Result<(usize, u32), AllocError> {
    let script = drill_script(alloc, seed)?;
    let mut sum = 0u32;
    for byte in script.as_slice() {
        sum = sum.wrapping_mul(31).wrapping_add(u32::from(*byte));
    }
    Ok((script.len(), sum))
}

#[test]
fn a_script_begins_with_its_first_task(rt: HostRuntime) -> Result<(), Fail> {
    let lines = [
        "shared s;",
        "task t0 {",
        "let i = 0;",
        "while (i < 50) {",
        "try { delete s.m6; } catch e { print e; }",
        "s.m3 = (27 + 27);",
        "try { delete s.m3; } catch e { print e; }",
    ];
    assert!(rt; has_lines(rt.alloc(), 1, 0, lines.as_slice())?);
    Ok(())
}

#[test]
fn the_draws_go_on_from_task_to_task(rt: HostRuntime) -> Result<(), Fail> {
    let lines = [
        "i = (i + 1);",
        "}",
        "}",
        "task t1 {",
        "let i = 0;",
        "while (i < 50) {",
        "try { print s.m0; } catch e { print e; }",
        "s.m6 = 47;",
    ];
    assert!(rt; has_lines(rt.alloc(), 1, 254, lines.as_slice())?);
    Ok(())
}

#[test]
fn whole_scripts_are_those_of_another_program(rt: HostRuntime) -> Result<(), Fail> {
    let alloc = rt.alloc();
    assert_eq!(rt; length_and_sum(alloc, 0)?, (55_069, 2_206_800_221));
    assert_eq!(rt; length_and_sum(alloc, 1)?, (56_328, 3_967_928_218));
    assert_eq!(rt;
        length_and_sum(alloc, 2_147_483_649)?,
        (56_328, 3_967_928_218)
    );
    assert_eq!(rt;
        length_and_sum(alloc, 4_294_967_295)?,
        (57_109, 614_431_111)
    );
    Ok(())
}
