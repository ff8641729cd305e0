use super::*;
use script_tokens::lex;
use std::test::Fail;

// What the tokens of this text are read as: the script, or the fault.
fn outcome_of(alloc: Global, source: &str, whole: bool) -> Result<String, Fail> {
    if source.len() > 1_000 {
        return Err("the text is too long".into());
    }
    let placed = lex(alloc, source.as_bytes())?;
    Ok(match parse(alloc, placed.tokens.as_slice()) {
        Ok(script) if whole => format!(in alloc; "{script:?}")?,
        Ok(_script) => String::from_str(alloc, "script")?,
        Err(fault) => format!(in alloc; "{fault:?}")?,
    })
}

#[test]
fn reads_every_form_of_a_script(rt: HostRuntime) -> Result<(), Fail> {
    let cases = [
        "",
        "shared a;",
        "fn f() {}",
        "fn f(a) {}",
        "fn f(a, b) {}",
        "task t {}",
        "fn f(a) { return a; } shared b; task t { print f(b); }",
        "task t { let a = 1; }",
        "task t { a = 1; }",
        "task t { a.b = 2; }",
        "task t { a[0] = 2; }",
        "task t { (1 + 2).b = 2; }",
        "task t { a.b(1)[c].d = new(); }",
        "task t { a.b; 1; f(a: 1); new(); }",
        "task t { delete a.b; }",
        "task t { delete a[0]; }",
        "task t { delete a.b(1)[c].d; }",
        "task t { return a; }",
        "task t { if a {} }",
        "task t { if a {} else {} }",
        "task t { if (a + 1) { if b {} else {} } else { print 1; } }",
        "task t { if a {} if b {} else {} print 1; }",
        "task t { while (a < 1) { a = (a + 1); } }",
        "task t { try {} catch e {} }",
        "task t { try { print 1; } catch e { print e; } }",
    ];
    for source in cases {
        let outcome = outcome_of(rt.alloc(), source, false)?;
        assert_eq!(rt; outcome.as_str(), "script", "of {source}");
    }
    Ok(())
}

#[test]
fn refuses_at_the_first_token_that_does_not_fit(rt: HostRuntime) -> Result<(), Fail> {
    let cases = [
        ("shared", 1),
        ("shared a", 2),
        ("shared a b", 2),
        ("shared 1;", 1),
        ("let a = 1;", 0),
        ("shared a; b", 3),
        ("fn f {}", 2),
        ("fn f(,) {}", 3),
        ("fn f(a b) {}", 4),
        ("fn f(a,) {}", 5),
        ("fn f(a", 4),
        ("fn f(1) {}", 3),
        ("fn () {}", 1),
        ("task t() {}", 2),
        ("task task {}", 1),
        ("task t {", 3),
        ("task t {} }", 4),
        ("task t { let a; }", 5),
        ("task t { let 1 = 1; }", 4),
        ("task t { let a.b = 1; }", 5),
        ("task t { a = 1 }", 6),
        ("task t { a == 1; }", 4),
        ("task t { 1 = 2; }", 4),
        ("task t { a(1) = 2; }", 7),
        ("task t { a.b(1) = 2; }", 9),
        ("task t { ; }", 3),
        ("task t { a. = 1; }", 5),
        ("task t { delete a; }", 5),
        ("task t { delete a.b(); }", 9),
        ("task t { delete a.b = 1; }", 7),
        ("task t { delete; }", 4),
        ("task t { return; }", 4),
        ("task t { print 1 2; }", 5),
        ("task t { if a print 1; }", 5),
        ("task t { if {} }", 4),
        ("task t { else {} }", 3),
        ("task t { if a {} else if b {} }", 8),
        ("task t { if a {} else {} else {} }", 10),
        ("task t { if a {} else", 8),
        ("task t { if a {}", 7),
        ("task t { while a; }", 5),
        ("task t { while (1) {} }", 6),
        ("task t { try {} }", 6),
        ("task t { try {} catch {} }", 7),
        ("task t { try {} catch e }", 8),
        ("task t { try a {} }", 4),
        ("task t { catch e {} }", 3),
        ("task t { {} }", 3),
        ("task t { fn f() {} }", 3),
        ("task t { print 1; task u {}", 6),
    ];
    for (source, place) in cases {
        let outcome = outcome_of(rt.alloc(), source, false)?;
        let expected = format!(in rt.alloc(); "Syntax({place})")?;
        assert_eq!(rt; outcome.as_str(), expected.as_str(), "of {source}");
    }
    Ok(())
}

#[test]
fn numbers_the_items_of_each_kind(rt: HostRuntime) -> Result<(), Fail> {
    let source = "shared b; fn f(x, y) {} shared a; task t {} fn g() {}";
    let outcome = outcome_of(rt.alloc(), source, true)?;
    let expected =
        "Script { items: Items { items: [Shared(0), Fun(0), Shared(1), Task(0), Fun(1)] }, \
        shared: Items { items: [DynText { text: \"b\" }, DynText { text: \"a\" }] }, functions: Items { items: [\
        Function { name: DynText { text: \"f\" }, params: Items { items: [DynText { text: \"x\" }, DynText { text: \"y\" }] }, \
        body: Block(Items { items: [] }) }, \
        Function { name: DynText { text: \"g\" }, params: Items { items: [] }, body: Block(Items { items: [] }) }] }, \
        tasks: Items { items: [Task { name: DynText { text: \"t\" }, body: Block(Items { items: [] }) }] } }";
    assert_eq!(rt; outcome.as_str(), expected);
    Ok(())
}

#[test]
fn reads_each_statement(rt: HostRuntime) -> Result<(), Fail> {
    let nil = "Expr { head: Nil, suffixes: Items { items: [] } }";
    let name = "DynText { text: \"a\" }";
    let none = "Block(Items { items: [] })";
    let cases = [
        (
            "let a = nil;",
            format!(in rt.alloc(); "Let {{ name: {name}, value: {nil} }}")?,
        ),
        (
            "a = nil;",
            format!(in rt.alloc(); "Assign {{ name: {name}, value: {nil} }}")?,
        ),
        (
            "nil.a = nil;",
            format!(in rt.alloc(); "SetMember {{ target: {nil}, name: {name}, value: {nil} }}")?,
        ),
        (
            "nil[nil] = nil;",
            format!(in rt.alloc(); "SetIndex {{ target: {nil}, key: {nil}, value: {nil} }}")?,
        ),
        (
            "delete nil.a;",
            format!(in rt.alloc(); "DeleteMember {{ target: {nil}, name: {name} }}")?,
        ),
        (
            "delete nil[nil];",
            format!(in rt.alloc(); "DeleteIndex {{ target: {nil}, key: {nil} }}")?,
        ),
        (
            "if nil {}",
            format!(in rt.alloc(); "If {{ test: {nil}, yes: {none}, no: None }}")?,
        ),
        (
            "if nil { if nil {} else {} }",
            format!(in rt.alloc();
                "If {{ test: {nil}, yes: Block(Items {{ items: \
                [If {{ test: {nil}, yes: {none}, no: Some({none}) }}] }}), no: None }}"
            )?,
        ),
        (
            "while nil {}",
            format!(in rt.alloc(); "While {{ test: {nil}, body: {none} }}")?,
        ),
        ("return nil;", format!(in rt.alloc(); "Return({nil})")?),
        ("print nil;", format!(in rt.alloc(); "Print({nil})")?),
        (
            "try {} catch a {}",
            format!(in rt.alloc(); "Try {{ body: {none}, name: {name}, caught: {none} }}")?,
        ),
        ("nil;", format!(in rt.alloc(); "Plain({nil})")?),
    ];
    for (stmt, tree) in cases {
        let source = format!(in rt.alloc(); "task a {{ {stmt} }}")?;
        let outcome = outcome_of(rt.alloc(), source.as_str(), true)?;
        let expected = format!(in rt.alloc();
            "Script {{ items: Items {{ items: [Task(0)] }}, \
            shared: Items {{ items: [] }}, functions: Items {{ items: [] }}, \
            tasks: Items {{ items: [Task {{ name: {name}, body: Block(Items {{ items: [{tree}] }}) }}] }} }}"
        )?;
        assert_eq!(rt; outcome.as_str(), expected.as_str(), "of {stmt}");
    }
    Ok(())
}
