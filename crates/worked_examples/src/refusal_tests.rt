//! Scripts that are refused, each with its cause and place, beside scripts that are not.
use crate::commands::{Row, run};
use std::test::Fail;

/// Scripts that break a rule on names; the token of the name is counted from 0.
static NAMES: [Row; 9] = [
    ("run", "shared s; shared s;", "refused: BadName 4\n", 6),
    ("run", "shared a; task a { }", "refused: BadName 4\n", 6),
    (
        "run",
        "shared s; task a { let s = 1; }",
        "refused: BadName 7\n",
        6,
    ),
    (
        "run",
        "task a { let x = 1; let x = 2; }",
        "refused: BadName 9\n",
        6,
    ),
    ("run", "task a { let x = x; }", "refused: BadName 6\n", 6),
    ("run", "task a { x = 1; }", "refused: BadName 3\n", 6),
    (
        "run",
        "shared s; task a { s = 1; }",
        "refused: BadName 6\n",
        6,
    ),
    ("run", "task a { print a; }", "refused: BadName 4\n", 6),
    ("check", "task a { print x; }", "refused: BadName 4\n", 6),
];

/// Scripts whose tokens or their order are refused.
static FORMS: [Row; 6] = [
    (
        "run",
        "task a { print 9223372036854775808; }",
        "refused: BadToken 15\n",
        6,
    ),
    ("run", "task a { print 007; }", "refused: BadToken 15\n", 6),
    ("check", "task a { print \"ab", "refused: BadToken 15\n", 6),
    ("run", "task a { print 1; ", "refused: Syntax 6\n", 6),
    ("check", "task a { print (1 +", "refused: Syntax 7\n", 6),
    ("check", "task a { print 1 + 2; }", "refused: Syntax 5\n", 6),
];

/// Scripts that a smaller language would refuse.
static ACCEPTED: [Row; 6] = [
    ("check", "task a { print (1 + 2); }", "ok\n", 0),
    ("check", "", "ok\n", 0),
    ("run", "task a { new(); }", "", 0),
    ("run", "shared s; task a { s.x; }", "a! NoMember \"x\"\n", 1),
    ("run", "shared s; task a { print s[1]; }", "a! NoIndex\n", 1),
    ("run", "task a { print \"text\"; }", "a: text\n", 0),
];

#[test]
fn names_that_break_a_rule(rt: HostRuntime) -> Result<(), Fail> {
    for &(words, script, written, status) in &NAMES {
        let ran = run(&rt, rt.alloc(), words, script.as_bytes())?;
        assert_eq!(rt; ran.written.as_slice(), written.as_bytes(), "{script}");
        assert_eq!(rt; ran.status, status, "{script}");
    }
    Ok(())
}

#[test]
fn tokens_that_are_no_script(rt: HostRuntime) -> Result<(), Fail> {
    for &(words, script, written, status) in &FORMS {
        let ran = run(&rt, rt.alloc(), words, script.as_bytes())?;
        assert_eq!(rt; ran.written.as_slice(), written.as_bytes(), "{script}");
        assert_eq!(rt; ran.status, status, "{script}");
    }
    Ok(())
}

#[test]
fn scripts_that_are_accepted(rt: HostRuntime) -> Result<(), Fail> {
    for &(words, script, written, status) in &ACCEPTED {
        let ran = run(&rt, rt.alloc(), words, script.as_bytes())?;
        assert_eq!(rt; ran.written.as_slice(), written.as_bytes(), "{script}");
        assert_eq!(rt; ran.status, status, "{script}");
    }
    Ok(())
}

#[test]
fn bytes_that_are_no_text(rt: HostRuntime) -> Result<(), Fail> {
    let rows = [
        (b"\xff".as_slice(), "refused: NotText 0\n"),
        (
            b"task a { print 1; } # \xff".as_slice(),
            "refused: NotText 22\n",
        ),
        (
            b"task a { print 1; }\xc3   ".as_slice(),
            "refused: NotText 19\n",
        ),
    ];
    for (script, written) in rows {
        let ran = run(&rt, rt.alloc(), "check", script)?;
        assert_eq!(rt; ran.written.as_slice(), written.as_bytes());
        assert_eq!(rt; ran.status, 6);
    }
    Ok(())
}

#[test]
fn a_script_has_at_most_a_mebibyte(rt: HostRuntime) -> Result<(), Fail> {
    let mut script = Vec::new(rt.alloc());
    script.resize(1_048_576, b' ')?;
    let ran = run(&rt, rt.alloc(), "check", script.as_slice())?;
    assert_eq!(rt; ran.written.as_slice(), b"ok\n".as_slice());
    assert_eq!(rt; ran.status, 0);
    script.push(b' ')?;
    let ran = run(&rt, rt.alloc(), "check", script.as_slice())?;
    assert_eq!(rt; ran.written.as_slice(), b"refused: TooLong\n".as_slice());
    assert_eq!(rt; ran.status, 6);
    Ok(())
}

#[test]
fn at_most_128_brackets_stand_open(rt: HostRuntime) -> Result<(), Fail> {
    let mut script = Vec::from_slice(rt.alloc(), b"task a { print ".as_slice())?;
    script.resize(15 + 128, b'(')?;
    let ran = run(&rt, rt.alloc(), "check", script.as_slice())?;
    assert_eq!(rt;
        ran.written.as_slice(),
        b"refused: TooDeep 131\n".as_slice()
    );
    assert_eq!(rt; ran.status, 6);
    Ok(())
}
