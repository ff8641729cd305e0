//! Scripts of the whole language, and what they print.
use crate::commands::{Row, run};
use crate::trade::{TRADE, TRADE_LINES};
use std::test::Fail;

/// Members that are removed, added again, and added up to the most that an object has.
static MEMBERS: [Row; 2] = [
    (
        "run",
        "fn getx(o) { return o.x; } task a { let o = new(); o.x = 1; o.y = 2; print getx(o); delete o.x; o.x = 3; print getx(o); }",
        "a: 1\na: 3\n",
        0,
    ),
    (
        "run",
        "task a { let o = new(); let i = 0; while (i < 64) { o[(\"k\" + text(i))] = i; i = (i + 1); } try { o.last = 1; } catch e { print e; } print o.k63; try { print o.last; } catch e { print e; } }",
        "a: MembersFull\na: 63\na: NoMember \"last\"\n",
        0,
    ),
];

/// Named arguments, and calls that are refused.
static CALLS: [Row; 2] = [
    (
        "run",
        "fn f(a, b) { return (a - b); } task t { print f(b: 1, a: 5); try { f(1); } catch e { print e; } try { f(1, c: 2); } catch e { print e; } try { f(1, a: 2); } catch e { print e; } try { nil(); } catch e { print e; } new(3); }",
        "t: 4\nt: WrongCount 2 1\nt: NoParameter \"c\"\nt: NoParameter \"a\"\nt: NotCallable Nil\nt! NotCreatable Int\n",
        1,
    ),
    (
        "run --journal",
        "shared s; task a { s.m = 5; s.m(1); }",
        "a! NotCallable Int\nobject 0\n  a SetMember \"m\" 5 -> nil\n  a InvokeMember \"m\" 1 1 -> 5\n  members \"m\" 5\n",
        1,
    ),
];

/// Operations on numbers and texts, and an object that is indexed.
static OPERATIONS: [Row; 3] = [
    (
        "run",
        "task a { print (((-9223372036854775807) - 1) / (-1)); }",
        "a! Overflow\n",
        1,
    ),
    (
        "run",
        "task t { print \"aé\"[1]; print \"aé\".length; print int(\"-7\"); try { int(\"007\"); } catch e { print e; } try { if 1 { print 2; } } catch e { print e; } print \"a\"[1]; }",
        "t: é\nt: 2\nt: -7\nt: NoConvert\nt: NoOperator\nt! NoIndex\n",
        1,
    ),
    (
        "run --journal",
        "shared s; task a { s[\"\"] = 1; print s[\"\"]; try { s[1] = 2; } catch e { print e; } }",
        "a: 1\na: NoIndex\nobject 0\n  a SetIndex \"\" 1 -> nil\n  a GetIndex \"\" -> 1\n  a SetIndex 1 2 -> ! NoIndex\n  members \"\" 1\n",
        0,
    ),
];

/// Turns, levels and objects are counted; the faults of the first two are never caught.
static LIMITS: [Row; 4] = [
    (
        "run --turns 5",
        "task a { let i = 0; try { while (i < 6) { i = (i + 1); print i; } } catch e { print e; } }",
        "a: 1\na: 2\na: 3\na: 4\na: 5\na! Turns\n",
        1,
    ),
    (
        "run --turns 5",
        "task a { let i = 0; try { while (i < 5) { i = (i + 1); print i; } } catch e { print e; } }",
        "a: 1\na: 2\na: 3\na: 4\na: 5\n",
        0,
    ),
    (
        "run",
        "fn f(n) { return f((n + 1)); } task a { f(0); }",
        "a! Depth\n",
        1,
    ),
    (
        "run --objects 2",
        "task a { let x = new(); let y = new(); try { let z = new(); } catch e { print e; } }",
        "a: HeapFull\n",
        0,
    ),
];

#[test]
fn members_come_and_go(rt: HostRuntime) -> Result<(), Fail> {
    for &(words, script, written, status) in &MEMBERS {
        let ran = run(&rt, rt.alloc(), words, script.as_bytes())?;
        assert_eq!(rt; ran.written.as_slice(), written.as_bytes(), "{script}");
        assert_eq!(rt; ran.status, status, "{script}");
    }
    Ok(())
}

#[test]
fn arguments_are_placed_and_counted(rt: HostRuntime) -> Result<(), Fail> {
    for &(words, script, written, status) in &CALLS {
        let ran = run(&rt, rt.alloc(), words, script.as_bytes())?;
        assert_eq!(rt; ran.written.as_slice(), written.as_bytes(), "{script}");
        assert_eq!(rt; ran.status, status, "{script}");
    }
    Ok(())
}

#[test]
fn operations_give_values_or_faults(rt: HostRuntime) -> Result<(), Fail> {
    for &(words, script, written, status) in &OPERATIONS {
        let ran = run(&rt, rt.alloc(), words, script.as_bytes())?;
        assert_eq!(rt; ran.written.as_slice(), written.as_bytes(), "{script}");
        assert_eq!(rt; ran.status, status, "{script}");
    }
    Ok(())
}

#[test]
fn turns_levels_and_objects_are_limited(rt: HostRuntime) -> Result<(), Fail> {
    for &(words, script, written, status) in &LIMITS {
        let ran = run(&rt, rt.alloc(), words, script.as_bytes())?;
        assert_eq!(rt; ran.written.as_slice(), written.as_bytes(), "{script}");
        assert_eq!(rt; ran.status, status, "{script}");
    }
    Ok(())
}

/// How many lines are entries of journals: those that begin with blanks, but for the members.
fn entry_count(text: &[u8]) -> usize {
    text.split(|byte| *byte == b'\n')
        .filter(|line| line.starts_with(b"  ") && !line.starts_with(b"  members"))
        .count()
}

#[test]
fn three_tasks_trade_with_objects_that_functions_make(rt: HostRuntime) -> Result<(), Fail> {
    let ran = run(&rt, rt.alloc(), "run", TRADE.as_bytes())?;
    assert_eq!(rt; ran.written.as_slice(), TRADE_LINES.as_bytes());
    assert_eq!(rt; ran.status, 0);
    let ran = run(&rt, rt.alloc(), "run --journal", TRADE.as_bytes())?;
    assert!(rt; ran.written.as_slice().starts_with(TRADE_LINES.as_bytes()));
    assert_eq!(rt; entry_count(ran.written.as_slice()), 216);
    Ok(())
}
