//! Places of refusals in scripts, worked out by hand.
use crate::explain;
use std::alloc::{AllocError, Global};
use std::test::Fail;

/// What is shown for the words, which blanks part; nothing where they point nowhere.
fn shown_for(alloc: Global, words: &str, script: &[u8]) -> Result<String, AllocError> {
    let mut parts = Vec::new(alloc);
    for word in words.split(' ') {
        parts.push(String::from_str(alloc, word)?)?;
    }
    if script.len() > 1_048_577 {
        return Err(AllocError);
    }
    match explain(alloc, parts.as_slice(), script)? {
        Some(text) => Ok(text),
        None => Ok(String::new(alloc)),
    }
}

#[test]
fn lines_and_columns(rt: HostRuntime) -> Result<(), Fail> {
    let rows = [
        (
            "BadToken 15",
            "task a { print 007; }",
            "line 1, column 16\n  task a { print 007; }\n                 ^\n",
        ),
        (
            "Syntax 5",
            "task a {\n  print 1 + 2;\n}",
            "line 2, column 11\n    print 1 + 2;\n            ^\n",
        ),
        (
            "BadToken 13",
            "# é ü\nx é $",
            "line 2, column 5\n  x é $\n      ^\n",
        ),
        ("BadToken 11", "# é ü\nx é $", ""),
        ("BadToken 14", "# é ü\nx é $", ""),
        (
            "Syntax 7",
            "task a { print (1 +",
            "line 1, column 20\n  task a { print (1 +\n                     ^\n",
        ),
        (
            "Syntax 7",
            "task a { print (1 +\n",
            "line 2, column 1\n  \n  ^\n",
        ),
        (
            "Syntax 6",
            "task a { print (1 +\n",
            "line 1, column 19\n  task a { print (1 +\n                    ^\n",
        ),
        ("Syntax 8", "task a { print (1 +\n", ""),
        (
            "Syntax 4",
            "task a {\r\n  prin;\r\n}",
            "line 2, column 7\n    prin; \n        ^\n",
        ),
        (
            "BadToken 3",
            "\tx\t$ y",
            "line 1, column 4\n  \tx\t$ y\n  \t \t^\n",
        ),
        ("Syntax 0", "", "line 1, column 1\n  \n  ^\n"),
        ("BadName 0", "", ""),
        ("TooDeep 3", "((\n((", "line 2, column 2\n  ((\n   ^\n"),
        ("TooDeep 4", "((\n((", ""),
        (
            "BadToken 16",
            "task a {\n print \"b\nc\"; }",
            "line 2, column 8\n   print \"b\n         ^\n",
        ),
        (
            "BadName 3",
            "print \"a\\nb\" ; é # é\n x",
            "line 1, column 16\n  print \"a\\nb\" ; é # é\n                 ^\n",
        ),
        (
            "BadName 4",
            "print \"a\\nb\" ; é # é\n x",
            "line 2, column 2\n   x\n   ^\n",
        ),
        ("Syntax 1", "a $", ""),
        ("NotText 1", "ab", ""),
    ];
    for (words, script, want) in rows {
        let got = shown_for(rt.alloc(), words, script.as_bytes())?;
        assert_eq!(rt; got.as_str(), want, "{words} {script}");
    }
    Ok(())
}

#[test]
fn bytes_that_are_no_text(rt: HostRuntime) -> Result<(), Fail> {
    let rows: [(&str, &[u8], &str); 6] = [
        ("NotText 4", b"ab\nc\xff d", "line 2, column 2\n  c\n   ^\n"),
        ("NotText 0", b"\xffab", "line 1, column 1\n  \n  ^\n"),
        (
            "NotText 3",
            b"\xc3\xa9 \xc3",
            "line 1, column 3\n  \u{e9} \n    ^\n",
        ),
        ("NotText 3", b"ab\nc\xff d", ""),
        ("NotText 5", b"ab\nc\xff d", ""),
        ("BadToken 0", b"ab\nc\xff d", ""),
    ];
    for (words, script, want) in rows {
        let got = shown_for(rt.alloc(), words, script)?;
        assert_eq!(rt; got.as_str(), want, "{words}");
    }
    Ok(())
}

#[test]
fn words_that_write_no_place(rt: HostRuntime) -> Result<(), Fail> {
    let rows = [
        "",
        "TooLong",
        "TooMany sites",
        "BadToken",
        "BadToken ",
        "BadToken 015",
        "BadToken 00",
        "BadToken +5",
        "BadToken -5",
        "BadToken 5 ",
        "BadToken 5 5",
        "BadToken 0x5",
        "badToken 5",
        "BadTokens 5",
        "Syntax 4294967296",
        "Syntax 18446744073709551616",
        "5 BadToken",
    ];
    for words in rows {
        let got = shown_for(rt.alloc(), words, b"task a { print 1; }")?;
        assert_eq!(rt; got.as_str(), "", "{words}");
    }
    Ok(())
}

/// So many of this character.
fn many(alloc: Global, c: char, count: usize) -> Result<String, AllocError> {
    let mut text = String::new(alloc);
    for _ in 0..count {
        text.push(c)?;
    }
    Ok(text)
}

#[test]
fn long_lines_are_cut(rt: HostRuntime) -> Result<(), Fail> {
    let alloc = rt.alloc();
    // how many blanks stand before the place, how many after it, and how many of each are shown
    let rows = [
        (60, 59, 60, 59, false),
        (61, 60, 60, 59, true),
        (500, 900, 60, 59, true),
    ];
    for (before, after, first, last, cut) in rows {
        let lead = many(alloc, ' ', before)?;
        let rest = many(alloc, ' ', after)?;
        let script = format!(in alloc; "a\n{lead}${rest}")?;
        let dots = if cut { "..." } else { "" };
        let blanks = if cut { "   " } else { "" };
        let shown_lead = many(alloc, ' ', first)?;
        let shown_rest = many(alloc, ' ', last)?;
        let words = format!(in alloc; "BadToken {}", before + 2)?;
        let column = before + 1;
        let want = format!(in alloc;
            "line 2, column {column}\n  {dots}{shown_lead}${shown_rest}{dots}\n  {blanks}{shown_lead}^\n"
        )?;
        let got = shown_for(alloc, words.as_str(), script.as_str().as_bytes())?;
        assert_eq!(rt; got.as_str(), want.as_str(), "{before} {after}");
    }
    Ok(())
}
