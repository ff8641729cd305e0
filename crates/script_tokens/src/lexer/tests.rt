use super::{LexFault, LexRefused, PlacedTokens, lex, placed_tokens};
use crate::token::Token;
use std::alloc::{AllocError, Global};
use std::test::Fail;

/// The token in a few words: a name in backquotes, a number, a text between quotation marks, or what a keyword or
/// symbol is called.
fn described(alloc: Global, token: &Token) -> Result<String, AllocError> {
    match token {
        Token::Name(name) => format!(in alloc; "`{}`", name.as_str()),
        Token::Int(number) => format!(in alloc; "{number}"),
        Token::Text(text) => format!(in alloc; "\"{}\"", text.as_str()),
        Token::Word(keyword) => format!(in alloc; "{keyword:?}"),
        Token::Mark(symbol) => format!(in alloc; "{symbol:?}"),
    }
}

/// What [`lex`] answers for bytes that are no more than a script may have.
fn short_lexed(alloc: Global, bytes: &[u8]) -> Result<PlacedTokens, LexFault> {
    if bytes.len() > 1_048_576 {
        return Err(LexFault::Memory);
    }
    lex(alloc, bytes)
}

/// The tokens in words, each after the byte at which it begins.
fn placed_words(alloc: Global, placed: &PlacedTokens) -> Result<String, AllocError> {
    let mut all = String::new(alloc);
    for (number, token) in placed.tokens.iter().enumerate() {
        let word = described(alloc, token)?;
        let placed_word = match placed.places.get(number) {
            Some(place) => format!(in alloc; " {place}:{word}")?,
            None => format!(in alloc; " no place")?,
        };
        all.push_str(placed_word.as_str())?;
    }
    Ok(all)
}

/// The tokens of bytes in words, or the refusal.
fn lexed(alloc: Global, bytes: &[u8]) -> Result<String, AllocError> {
    match short_lexed(alloc, bytes) {
        Ok(placed) => placed_words(alloc, &placed),
        Err(LexFault::Refused(LexRefused::NotText(place))) => format!(in alloc; "NotText {place}"),
        Err(LexFault::Refused(LexRefused::BadToken(place))) => {
            format!(in alloc; "BadToken {place}")
        }
        Err(LexFault::Refused(LexRefused::TooDeep(number))) => {
            format!(in alloc; "TooDeep {number}")
        }
        Err(LexFault::Memory) => Err(AllocError),
    }
}

#[test]
fn tokens_of_texts(rt: HostRuntime) -> Result<(), Fail> {
    let rows = [
        ("", ""),
        (" \t\r\n", ""),
        ("<==", " 0:LessEqual 2:Equal"),
        ("===", " 0:EqualEqual 2:Equal"),
        ("! =", " 0:Bang 2:Equal"),
        ("!==", " 0:BangEqual 2:Equal"),
        (">=<", " 0:GreaterEqual 2:Less"),
        ("&&", " 0:Ampersand 1:Ampersand"),
        (
            "(){}[]",
            " 0:OpenParenthesis 1:CloseParenthesis 2:OpenBrace 3:CloseBrace 4:OpenBracket 5:CloseBracket",
        ),
        (
            ",;.:=<>",
            " 0:Comma 1:Semicolon 2:Dot 3:Colon 4:Equal 5:Less 6:Greater",
        ),
        (
            "+-*/%|!",
            " 0:Plus 1:Minus 2:Star 3:Slash 4:Percent 5:Bar 6:Bang",
        ),
        (
            "shared fn task let delete if else",
            " 0:Shared 7:Fn 10:Task 15:Let 19:Delete 26:If 29:Else",
        ),
        (
            "while return print try catch new nil",
            " 0:While 6:Return 13:Print 19:Try 23:Catch 29:New 33:Nil",
        ),
        (
            "true false int text bool",
            " 0:True 5:False 11:Int 15:Text 20:Bool",
        ),
        ("Fn fns _fn _", " 0:`Fn` 3:`fns` 7:`_fn` 11:`_`"),
        ("12ab", " 0:12 2:`ab`"),
        ("a-1.5", " 0:`a` 1:Minus 2:1 3:Dot 4:5"),
        ("0", " 0:0"),
        ("007", "BadToken 0"),
        ("x 01;", "BadToken 2"),
        ("9223372036854775807", " 0:9223372036854775807"),
        ("9223372036854775808", "BadToken 0"),
        ("é 18446744073709551617;", "BadToken 3"),
        (
            "abcdefghabcdefghabcdefghabcdefghabcdefghabcdefghabcdefghabcdefgh",
            " 0:`abcdefghabcdefghabcdefghabcdefghabcdefghabcdefghabcdefghabcdefgh`",
        ),
        (
            "abcdefghabcdefghabcdefghabcdefghabcdefghabcdefghabcdefghabcdefghi;",
            "BadToken 0",
        ),
        (
            "éééééééééééééééééééééééééééééééé;",
            " 0:`éééééééééééééééééééééééééééééééé` 64:Semicolon",
        ),
        (";aéééééééééééééééééééééééééééééééé", "BadToken 1"),
        ("# a", ""),
        ("# é\n;", " 5:Semicolon"),
        ("a # b", " 0:`a`"),
        ("a#b=\"c\n=", " 0:`a` 7:Equal"),
        ("é1 é", " 0:`é1` 4:`é`"),
        ("x\u{663};", " 0:`x\u{663}` 3:Semicolon"),
        ("\u{663}", "BadToken 0"),
        ("a\u{b}b", "BadToken 1"),
        ("a \u{a0}b", "BadToken 2"),
        ("a $ b", "BadToken 2"),
    ];
    for (text, want) in rows {
        let got = lexed(rt.alloc(), text.as_bytes())?;
        assert_eq!(rt; got.as_str(), want, "{text}");
    }
    Ok(())
}

#[test]
fn texts_between_quotation_marks(rt: HostRuntime) -> Result<(), Fail> {
    let rows = [
        ("\"\"", " 0:\"\""),
        ("\"a\"", " 0:\"a\""),
        ("x=\"é\"+1", " 0:`x` 1:Equal 2:\"é\" 6:Plus 7:1"),
        ("\"a\"\"b\"", " 0:\"a\" 3:\"b\""),
        ("\"\\\"\"", " 0:\"\"\""),
        ("\"\\\\\" ;", " 0:\"\\\" 5:Semicolon"),
        ("\"\\n\\t\"", " 0:\"\n\t\""),
        ("\"\\\\n\"", " 0:\"\\n\""),
        ("\"# a\" # \"b\"", " 0:\"# a\""),
        ("\"\u{7f} \u{a0}\"", " 0:\"\u{7f} \u{a0}\""),
        ("\"", "BadToken 0"),
        ("a \"b", "BadToken 2"),
        ("\"b\\\"", "BadToken 0"),
        ("\"b\\", "BadToken 0"),
        ("\"b\\q\"", "BadToken 0"),
        ("\"b\\\n\"", "BadToken 0"),
        ("\"b\nc\"", "BadToken 0"),
        ("\"b\tc\"", "BadToken 0"),
        ("\"b\u{1f}\"", "BadToken 0"),
        ("\"a\" \"\n\"", "BadToken 4"),
        ("\"a\" $ \"", "BadToken 4"),
    ];
    for (text, want) in rows {
        let got = lexed(rt.alloc(), text.as_bytes())?;
        assert_eq!(rt; got.as_str(), want, "{text}");
    }
    Ok(())
}

/// A text between quotation marks, with this part so many times.
fn quoted_times(alloc: Global, part: &str, count: usize) -> Result<String, AllocError> {
    let mut quoted = String::from_str(alloc, "\"")?;
    for _ in 0..count {
        quoted.push_str(part)?;
    }
    quoted.push('"')?;
    Ok(quoted)
}

#[test]
fn the_longest_text(rt: HostRuntime) -> Result<(), Fail> {
    // what a text has, how often, and whether that is a token
    let rows = [
        ("a", 65_536, true),
        ("a", 65_537, false),
        ("\\n", 65_536, true),
        ("\\n", 65_537, false),
        ("é", 32_768, true),
        ("é", 32_769, false),
    ];
    for (part, count, want) in rows {
        let text = quoted_times(rt.alloc(), part, count)?;
        let got = match short_lexed(rt.alloc(), text.as_str().as_bytes()) {
            Ok(placed) => placed.tokens.len() == 1,
            Err(LexFault::Refused(LexRefused::BadToken(0))) => false,
            _ => return Err(Fail::from(AllocError)),
        };
        assert_eq!(rt; got, want, "{count} of {part}");
    }
    Ok(())
}

#[test]
fn refusals_in_their_order(rt: HostRuntime) -> Result<(), Fail> {
    // a beginning, brackets that open, an end, and the refusal
    let rows: [(&[u8], usize, &[u8], &str); 7] = [
        (b"", 0, b"\xff", "NotText 0"),
        (b"$ \xc3\xa9", 129, b"a\xc3", "NotText 134"),
        (b"$ \xed\xa0\x80", 0, b"", "NotText 2"),
        (b"\xc3\xa9", 129, b"$", "BadToken 131"),
        (b"a \"(\" # ((\n", 129, b"", "TooDeep 130"),
        (b"a", 130, b"", "TooDeep 129"),
        (b"a b", 129, b"]", "TooDeep 130"),
    ];
    for (start, open, end, want) in rows {
        let mut bytes = Vec::new(rt.alloc());
        bytes.extend_from_slice(start)?;
        for _ in 0..open {
            bytes.push(b'(')?;
        }
        bytes.extend_from_slice(end)?;
        let got = lexed(rt.alloc(), bytes.as_slice())?;
        assert_eq!(rt; got.as_str(), want);
    }
    Ok(())
}

#[test]
fn tokens_of_brackets_that_stand_too_deep(rt: HostRuntime) -> Result<(), Fail> {
    let mut bytes = Vec::new(rt.alloc());
    for _ in 0..130 {
        bytes.extend_from_slice(b" (")?;
    }
    assert!(rt; bytes.len() < 1000);
    let placed = match placed_tokens(rt.alloc(), bytes.as_slice()) {
        Ok(placed) => placed,
        Err(_) => return Err(Fail::from(AllocError)),
    };
    assert_eq!(rt; placed.tokens.len(), 130);
    assert_eq!(rt; placed.places.last().copied(), Some(259));
    Ok(())
}
