use super::expr_at;
use crate::halt::Halt;
use script_tokens::lex;
use std::alloc::Global;
use std::test::Fail;

// What the tokens of this text are read as, and how many of them are left after it or from where it stops.
fn outcome_of(alloc: Global, source: &str, whole: bool) -> Result<String, Fail> {
    if source.len() > 1_000 {
        return Err("the text is too long".into());
    }
    let placed = lex(alloc, source.as_bytes())?;
    Ok(match expr_at(alloc, placed.tokens.as_slice()) {
        Ok((expr, _rest)) if whole => format!(in alloc; "{expr:?}")?,
        Ok((_expr, rest)) => format!(in alloc; "read, {} left", rest.len())?,
        Err(Halt::Stop(rest)) => format!(in alloc; "stop, {} left", rest.len())?,
        Err(Halt::Memory) => return Err("out of memory".into()),
    })
}

#[test]
fn reads_as_far_as_an_expression_goes(rt: HostRuntime) -> Result<(), Fail> {
    let cases = [
        ("1", 0),
        ("\"a b\"", 0),
        ("nil", 0),
        ("(- 1)", 0),
        ("(!a)", 0),
        ("((-1) - (2 * a))", 0),
        ("(((1 / 2) % (3 == 4)) != ((5 < 6) <= 7))", 0),
        ("(((1 > 2) >= (3 & 4)) | (5 + 6))", 0),
        ("new(a, 1, b: 2)", 0),
        ("new((1 + 2).c)", 0),
        ("int(text(bool(\"5\")))", 0),
        ("1.a", 0),
        ("a.b(1)(2)", 0),
        ("a[0](1)", 0),
        ("a(1)(2)[b].c(d: 1)", 0),
        ("f(1, a: 2, b: c.d)", 0),
        ("a = 1", 2),
        ("a.b = c", 2),
        ("1 + 2", 2),
        ("a : 1", 2),
        ("a.b c", 1),
        ("a {}", 2),
    ];
    for (source, left) in cases {
        let outcome = outcome_of(rt.alloc(), source, false)?;
        let expected = format!(in rt.alloc(); "read, {left} left")?;
        assert_eq!(rt; outcome.as_str(), expected.as_str(), "of {source}");
    }
    Ok(())
}

#[test]
fn stops_at_the_first_token_that_cannot_be_taken(rt: HostRuntime) -> Result<(), Fail> {
    let cases = [
        ("", 0),
        (";", 1),
        ("else", 1),
        ("-1", 2),
        ("(1)", 1),
        ("(x.f)(1)", 4),
        ("(1 + 2", 0),
        ("(1 + 2 + 3)", 3),
        ("(1 ! 2)", 3),
        ("(- 1 + 2)", 3),
        ("(-)", 1),
        ("(+ 1)", 3),
        ("new", 0),
        ("new a", 1),
        ("new(a: 1)", 3),
        ("new(,)", 2),
        ("new(a 1)", 2),
        ("new(a,)", 1),
        ("int 1", 1),
        ("int()", 1),
        ("text(1, 2)", 3),
        ("bool(1", 0),
        ("a.", 0),
        ("a.1", 1),
        ("a.int(1)", 4),
        ("a.b.(1)", 3),
        ("a[]", 1),
        ("a[1, 2]", 3),
        ("a[b: 1]", 3),
        ("f(", 0),
        ("f(1,)", 1),
        ("f(,)", 2),
        ("f(1 2)", 2),
        ("f(a: 1, 2)", 2),
        ("f(a: 1, b)", 1),
        ("f(a: 1, b = 2)", 3),
        ("f(1: 2)", 3),
        ("f(a.b: 2)", 3),
        ("f((a): 2)", 4),
        ("f(a:)", 1),
        ("f(a: b: 1)", 3),
    ];
    for (source, left) in cases {
        let outcome = outcome_of(rt.alloc(), source, false)?;
        let expected = format!(in rt.alloc(); "stop, {left} left")?;
        assert_eq!(rt; outcome.as_str(), expected.as_str(), "of {source}");
    }
    Ok(())
}

#[test]
fn reads_each_form_as_its_tree(rt: HostRuntime) -> Result<(), Fail> {
    let cases = [
        ("7", "Expr { head: Int(7), suffixes: Items { items: [] } }"),
        (
            "\"a\\n\"",
            "Expr { head: Text(DynText { text: \"a\\n\" }), suffixes: Items { items: [] } }",
        ),
        (
            "(!true)",
            "Expr { head: Unary { op: Not, value: Boxed { inner: Expr { head: True, \
             suffixes: Items { items: [] } } } }, suffixes: Items { items: [] } }",
        ),
        (
            "(nil - false)",
            "Expr { head: Binary { op: Subtract, \
             left: Boxed { inner: Expr { head: Nil, suffixes: Items { items: [] } } }, \
             right: Boxed { inner: Expr { head: False, suffixes: Items { items: [] } } } }, \
             suffixes: Items { items: [] } }",
        ),
        (
            "new().a",
            "Expr { head: New, suffixes: Items { items: [Member { name: DynText { text: \"a\" } }] } }",
        ),
        (
            "new(1, b: 2)",
            "Expr { head: NewOf { target: Boxed { inner: Expr { head: Int(1), suffixes: Items { items: [] } } }, \
             args: Items { items: [Arg { name: Some(DynText { text: \"b\" }), \
             value: Expr { head: Int(2), suffixes: Items { items: [] } } }] } }, suffixes: Items { items: [] } }",
        ),
        (
            "text(1)[2]",
            "Expr { head: Convert { to: Text, value: Boxed { inner: Expr { head: Int(1), \
             suffixes: Items { items: [] } } } }, suffixes: Items { items: [Index(Expr { head: Int(2), \
             suffixes: Items { items: [] } })] } }",
        ),
        (
            "f(1).g()",
            "Expr { head: Name(DynText { text: \"f\" }), suffixes: Items { items: [\
             Call(Items { items: [Arg { name: None, value: Expr { head: Int(1), suffixes: Items { items: [] } } }] }), \
             MemberCall { name: DynText { text: \"g\" }, args: Items { items: [] } }] } }",
        ),
    ];
    for (source, expected) in cases {
        let outcome = outcome_of(rt.alloc(), source, true)?;
        assert_eq!(rt; outcome.as_str(), expected, "of {source}");
    }
    Ok(())
}
