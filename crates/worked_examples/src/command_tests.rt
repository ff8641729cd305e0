use crate::commands::run;
use crate::journals::JOURNALS;
use std::test::Fail;

#[test]
fn scripts(rt: HostRuntime) -> Result<(), Fail> {
    let rows = [
        ("", "", 0),
        ("task a { }", "", 0),
        ("task a { print (1 + 2); }", "a: 3\n", 0),
        ("task a { print ((2 * 3) - 10); }", "a: -4\n", 0),
        (
            "task a { print 1; print 2; print 3; }",
            "a: 1\na: 2\na: 3\n",
            0,
        ),
        (
            "task a { print (9223372036854775807 + 1); }",
            "a! Overflow\n",
            1,
        ),
        (
            "task a { print 1; print (9223372036854775807 * 2); print 3; }",
            "a: 1\na! Overflow\n",
            1,
        ),
        (
            "task a { print ((0 - 9223372036854775807) - 1); print (((0 - 9223372036854775807) - 1) - 1); }",
            "a: -9223372036854775808\na! Overflow\n",
            1,
        ),
        (
            "# a comment\ntask größe { print (2 * (3 + 4)); } # no line feed",
            "größe: 14\n",
            0,
        ),
        ("task a { print (4 / 2); }", "a: 2\n", 0),
        ("task a { print 1; } task b { print 2; }", "a: 1\nb: 2\n", 0),
    ];
    for (script, written, status) in rows {
        let ran = run(&rt, rt.alloc(), "run", script.as_bytes())?;
        assert_eq!(rt; ran.written.as_slice(), written.as_bytes(), "{script}");
        assert_eq!(rt; ran.status, status, "{script}");
    }
    Ok(())
}

#[test]
fn names_and_objects(rt: HostRuntime) -> Result<(), Fail> {
    let rows = [
        (
            "task a { let o = new(); o.x = 4; print o.x; print o; }",
            "a: 4\na: obj#0\n",
            0,
        ),
        ("task a { let x = (2 * 3); print (x - 10); }", "a: -4\n", 0),
        (
            "task a { let x = 1; let y = x; x = (x + 1); print x; print y; print nil; print true; print false; }",
            "a: 2\na: 1\na: nil\na: true\na: false\n",
            0,
        ),
        (
            "shared s; shared u; task a { s.to = u; u.n = 7; print s.to.n; print new(); print u; }",
            "a: 7\na: obj#2\na: obj#1\n",
            0,
        ),
        (
            "shared s; task a { s.n = 1; s.n = 2; delete s.n; print s.n; }",
            "a! NoMember \"n\"\n",
            1,
        ),
        (
            "task a { print 1.n; } task b { print 2; }",
            "a! NoMember \"n\"\nb: 2\n",
            1,
        ),
        ("task a { print (nil + 1); }", "a! NoOperator\n", 1),
    ];
    for (script, written, status) in rows {
        let ran = run(&rt, rt.alloc(), "run", script.as_bytes())?;
        assert_eq!(rt; ran.written.as_slice(), written.as_bytes(), "{script}");
        assert_eq!(rt; ran.status, status, "{script}");
    }
    Ok(())
}

#[test]
fn journals(rt: HostRuntime) -> Result<(), Fail> {
    for example in JOURNALS {
        let script = example.script;
        let ran = run(&rt, rt.alloc(), example.words, script.as_bytes())?;
        assert_eq!(rt; ran.written.as_slice(), example.text.as_bytes(), "{script}");
        assert_eq!(rt; ran.status, example.status, "{script}");
    }
    Ok(())
}

#[test]
fn words(rt: HostRuntime) -> Result<(), Fail> {
    let usage =
        "usage: dlr run [--serial] [--journal] [--stats] [--rules] [--turns N] [--objects N] | check | drill SEED\n";
    for words in [
        "",
        "go",
        "Run",
        "run --",
        "run --serial --serial",
        "run --journal --serial --journal",
        "run --serial run",
        "--serial run",
        "run --turns 0",
        "run run",
        "check run",
    ] {
        let ran = run(&rt, rt.alloc(), words, b"task a { print (1 + 2); }")?;
        assert_eq!(rt; ran.written.as_slice(), usage.as_bytes(), "{words}");
        assert_eq!(rt; ran.status, 2, "{words}");
    }
    Ok(())
}
