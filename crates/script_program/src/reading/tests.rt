use super::{ReadFault, ScriptRefused, read};
use ScriptRefused::{BadName, BadToken, NotText, Syntax, TooDeep, TooLong, TooMany};
use script_sites::What;
use std::alloc::{AllocError, Global};
use std::test::Fail;

/// Why the bytes are no script; `None` where they are one.
fn refusal_of(alloc: Global, bytes: &[u8]) -> Result<Option<ScriptRefused>, AllocError> {
    match read(alloc, bytes) {
        Ok(_) => Ok(None),
        Err(ReadFault::Refused(refused)) => Ok(Some(refused)),
        Err(ReadFault::Memory) => Err(AllocError),
    }
}

#[test]
fn each_refusal_and_what_is_not_refused_beside_it(rt: HostRuntime) -> Result<(), Fail> {
    let rows: [(&[u8], Option<ScriptRefused>); 34] = [
        (b"", None),
        (b"# \xC3\xA9", None),
        (b"# \xC3", Some(NotText(2))),
        (b"\xFF", Some(NotText(0))),
        (b"@ \xFF", Some(NotText(2))),
        (b"@", Some(BadToken(0))),
        (b"shared s; task @", Some(BadToken(15))),
        (b"task t { print 0; }", None),
        (b"task t { print 00; }", Some(BadToken(15))),
        (b"task t { print \"\"; }", None),
        (b"task t { print \"; }", Some(BadToken(15))),
        (b"task t { print \"\\n\"; }", None),
        (b"task t { print \"\\r\"; }", Some(BadToken(15))),
        (b"}", Some(Syntax(0))),
        (b"shared s", Some(Syntax(2))),
        (b"shared s;", None),
        (b"shared s; ;", Some(Syntax(3))),
        (b"task t { print 1 }", Some(Syntax(5))),
        (b"task t { print (1); }", Some(Syntax(6))),
        (b"task t { print x; } ;", Some(Syntax(7))),
        (b"task t { print x; }", Some(BadName(4))),
        (b"task t { let x = 1; print x; }", None),
        (b"task t { let x = x; }", Some(BadName(6))),
        (b"task t { { let x = 1; } }", Some(Syntax(3))),
        (
            b"task t { if true { let x = 1; } print x; }",
            Some(BadName(13)),
        ),
        (b"shared s; shared s;", Some(BadName(4))),
        (b"shared s; task s { }", Some(BadName(4))),
        (b"fn f(a, a) { }", Some(BadName(5))),
        (b"fn f(a, b) { }", None),
        (b"fn f() { } task t { f(a: 1, a: 2); }", Some(BadName(15))),
        (b"fn f() { } task t { f(a: 1, b: 2); }", None),
        (b"task t { try { } catch e { print e; } }", None),
        (
            b"task t { try { } catch e { } print e; }",
            Some(BadName(11)),
        ),
        (b"task t { x = 1; let x = 1; }", Some(BadName(3))),
    ];
    for (source, want) in rows {
        assert_eq!(rt; refusal_of(rt.alloc(), source)?, want, "{source:?}");
    }
    Ok(())
}

/// A text so many times, and then another.
fn repeated(alloc: Global, part: &[u8], count: usize, end: &[u8]) -> Result<Vec<u8>, AllocError> {
    let mut all = Vec::new(alloc);
    for _ in 0..count {
        all.extend_from_slice(part)?;
    }
    all.extend_from_slice(end)?;
    Ok(all)
}

#[test]
fn long_and_deep_scripts(rt: HostRuntime) -> Result<(), Fail> {
    let rows: [(&[u8], usize, &[u8], Option<ScriptRefused>); 8] = [
        (b" ", 1_048_576, b"", None),
        (b" ", 1_048_577, b"", Some(TooLong)),
        (b" ", 1_048_576, b"\xFF", Some(TooLong)),
        (b" ", 1_048_575, b"\xFF", Some(NotText(1_048_575))),
        (b"(", 128, b"", Some(Syntax(0))),
        (b"(", 129, b"", Some(TooDeep(128))),
        (b"(", 129, b"@", Some(BadToken(129))),
        (b"{}", 129, b"", Some(Syntax(0))),
    ];
    for (part, count, end, want) in rows {
        let source = repeated(rt.alloc(), part, count, end)?;
        assert_eq!(rt;
            refusal_of(rt.alloc(), source.as_slice())?,
            want,
            "{count} of {part:?}"
        );
    }
    Ok(())
}

/// A script with so many parts, each with its number between two texts.
fn script_of(
    alloc: Global,
    ends: (&str, &str),
    part: (&str, &str),
    count: u32,
) -> Result<String, AllocError> {
    let mut script = format!(in alloc; "{}", ends.0)?;
    for number in 0..count {
        let next = format!(in alloc; "{}{number}{}", part.0, part.1)?;
        script.push_str(next.as_str())?;
    }
    script.push_str(ends.1)?;
    Ok(script)
}

#[test]
fn the_most_of_each_kind(rt: HostRuntime) -> Result<(), Fail> {
    let task = ("task t {", "}");
    let rows = [
        (("", ""), ("shared s", ";"), 64, TooMany(What::Shared)),
        (("", ""), ("fn f", "() { }"), 256, TooMany(What::Functions)),
        (("", ""), ("task t", " { }"), 8, TooMany(What::Tasks)),
        (
            ("fn f(z", ") { }"),
            (", a", ""),
            15,
            TooMany(What::Parameters),
        ),
        (
            ("task t { print nil(0", "); }"),
            (", ", ""),
            15,
            TooMany(What::Arguments),
        ),
        (task, ("let a", " = 1;"), 256, TooMany(What::Locals)),
        (task, ("print (1 + ", ");"), 4096, TooMany(What::Sites)),
        (task, ("print nil.m", ";"), 1024, TooMany(What::Binders)),
    ];
    for (ends, part, most, refused) in rows {
        for (count, want) in [(most, None), (most + 1, Some(refused))] {
            let script = script_of(rt.alloc(), ends, part, count)?;
            let got = refusal_of(rt.alloc(), script.as_str().as_bytes())?;
            assert_eq!(rt; got, want, "{count} of `{}`", part.0);
        }
    }
    let repeats = script_of(rt.alloc(), ("", "shared s0;"), ("shared s", ";"), 65)?;
    let got = refusal_of(rt.alloc(), repeats.as_str().as_bytes())?;
    assert_eq!(rt; got, Some(BadName(196)));
    Ok(())
}

#[test]
fn a_program_and_its_parts(rt: HostRuntime) -> Result<(), Fail> {
    let source = "shared a; fn f(x, y) { return (x + y.m); } \
        task t { print f(1, y: 2); a.m = (1 + 2); } fn g() { print a; }";
    let program = match read(rt.alloc(), source.as_bytes()) {
        Ok(program) => program,
        Err(_) => return Err(Fail::from("refused")),
    };
    assert_eq!(rt; program.sites(), [0, 1, 2, 3, 0].as_slice());
    assert_eq!(rt; program.function_starts(), [0, 5].as_slice());
    assert_eq!(rt; program.task_starts(), [2].as_slice());
    assert_eq!(rt; program.items().len(), 4);
    assert_eq!(rt; program.shared().len(), 1);
    assert_eq!(rt; program.tasks().len(), 1);
    let mut texts = Vec::new(rt.alloc());
    for site in 0..program.sites().len() as u32 {
        texts.push(b',')?;
        program.binder_of(site).print_to(&mut texts)?;
    }
    let want = b",Add,GetMember \"m\",Invoke 2 y,SetMember \"m\",Add";
    assert_eq!(rt; texts.as_slice(), want.as_slice());
    let table = program.fun_table(rt.alloc())?;
    assert_eq!(rt; table.len(), program.functions().len());
    assert_eq!(rt; table.parameters(0).len(), 2);
    assert_eq!(rt; table.parameters(1).len(), 0);
    Ok(())
}
