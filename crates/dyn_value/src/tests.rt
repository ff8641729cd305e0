mod conversions;
mod kinds;

use crate::{BinOp, DynText, Fault, Kind, UnOp, Value, binary, unary};
use std::alloc::{AllocError, Global};
use std::test::Fail;

/// A value as the tables below write it.
#[derive(Clone, Copy, Debug)]
enum Sample {
    Nil,
    Bool(bool),
    Int(i64),
    Text(&'static str),
    Fun(u32),
    Obj(u32),
}

use Sample::{Bool, Fun, Int, Nil, Obj, Text};

static BINARY: [(Sample, BinOp, Sample, &str); 54] = [
    (Int(i64::MAX), BinOp::Add, Int(0), "9223372036854775807"),
    (Int(i64::MAX), BinOp::Add, Int(1), "Overflow"),
    (Int(i64::MIN), BinOp::Add, Int(-1), "Overflow"),
    (Int(i64::MIN), BinOp::Add, Int(i64::MAX), "-1"),
    (Text(""), BinOp::Add, Text(""), ""),
    (Text("aé"), BinOp::Add, Text("€𝄞"), "aé€𝄞"),
    (Int(1), BinOp::Add, Text("1"), "NoOperator"),
    (Obj(0), BinOp::Add, Obj(0), "NoOperator"),
    (
        Int(-1),
        BinOp::Subtract,
        Int(i64::MAX),
        "-9223372036854775808",
    ),
    (Int(0), BinOp::Subtract, Int(i64::MIN), "Overflow"),
    (Int(i64::MIN), BinOp::Subtract, Int(1), "Overflow"),
    (Text("a"), BinOp::Subtract, Text("a"), "NoOperator"),
    (
        Int(i64::MAX),
        BinOp::Multiply,
        Int(-1),
        "-9223372036854775807",
    ),
    (Int(i64::MIN), BinOp::Multiply, Int(-1), "Overflow"),
    (
        Int(3037000499),
        BinOp::Multiply,
        Int(3037000499),
        "9223372030926249001",
    ),
    (
        Int(3037000500),
        BinOp::Multiply,
        Int(3037000500),
        "Overflow",
    ),
    (Bool(true), BinOp::Multiply, Int(1), "NoOperator"),
    (Int(7), BinOp::Divide, Int(-2), "-3"),
    (Int(-7), BinOp::Divide, Int(2), "-3"),
    (Int(i64::MIN), BinOp::Divide, Int(-1), "Overflow"),
    (Int(i64::MIN), BinOp::Divide, Int(0), "ZeroDivide"),
    (Nil, BinOp::Divide, Int(0), "NoOperator"),
    (Int(-7), BinOp::Modulo, Int(2), "-1"),
    (Int(7), BinOp::Modulo, Int(-2), "1"),
    (Int(i64::MIN), BinOp::Modulo, Int(-1), "0"),
    (Int(0), BinOp::Modulo, Int(0), "ZeroDivide"),
    (Fun(1), BinOp::Modulo, Fun(1), "NoOperator"),
    (Int(-1), BinOp::Equal, Int(-1), "true"),
    (Nil, BinOp::Equal, Nil, "true"),
    (Nil, BinOp::Equal, Bool(false), "false"),
    (Bool(false), BinOp::Equal, Int(0), "false"),
    (Fun(1), BinOp::Equal, Obj(1), "false"),
    (Text("é"), BinOp::Equal, Text("e\u{301}"), "false"),
    (Text("é"), BinOp::NotEqual, Text("é"), "false"),
    (Obj(1), BinOp::NotEqual, Obj(2), "true"),
    (Int(i64::MIN), BinOp::LessThan, Int(i64::MAX), "true"),
    (Int(0), BinOp::LessThan, Int(0), "false"),
    (Text("Z"), BinOp::LessThan, Text("a"), "true"),
    (Text("a"), BinOp::LessThan, Text("aa"), "true"),
    (Text("b"), BinOp::LessThan, Text("aa"), "false"),
    (Text("\u{ffff}"), BinOp::LessThan, Text("\u{10000}"), "true"),
    (Int(1), BinOp::LessThan, Text("2"), "NoOperator"),
    (Text(""), BinOp::LessThanOrEqual, Text(""), "true"),
    (Obj(0), BinOp::LessThanOrEqual, Obj(1), "NoOperator"),
    (Int(-1), BinOp::GreaterThan, Int(0), "false"),
    (Text("é"), BinOp::GreaterThan, Text("z"), "true"),
    (Nil, BinOp::GreaterThan, Nil, "NoOperator"),
    (
        Int(i64::MIN),
        BinOp::GreaterThanOrEqual,
        Int(i64::MIN),
        "true",
    ),
    (
        Bool(true),
        BinOp::GreaterThanOrEqual,
        Bool(true),
        "NoOperator",
    ),
    (Bool(true), BinOp::And, Bool(false), "false"),
    (Bool(true), BinOp::And, Nil, "NoOperator"),
    (Int(1), BinOp::And, Int(1), "NoOperator"),
    (Bool(true), BinOp::Or, Bool(false), "true"),
    (Nil, BinOp::Or, Bool(true), "NoOperator"),
];

static UNARY: [(UnOp, Sample, &str); 13] = [
    (UnOp::Negate, Int(i64::MAX), "-9223372036854775807"),
    (UnOp::Negate, Int(i64::MIN), "Overflow"),
    (UnOp::Negate, Int(0), "0"),
    (UnOp::Negate, Text("1"), "NoOperator"),
    (UnOp::Negate, Bool(true), "NoOperator"),
    (UnOp::Not, Nil, "true"),
    (UnOp::Not, Bool(true), "false"),
    (UnOp::Not, Int(0), "NoOperator"),
    (UnOp::Not, Fun(0), "NoOperator"),
    (UnOp::IsTrue, Nil, "false"),
    (UnOp::IsTrue, Bool(true), "true"),
    (UnOp::IsTrue, Int(1), "NoOperator"),
    (UnOp::IsTrue, Obj(0), "NoOperator"),
];

/// Each value's plain text and quoted text.
static TEXTS: [(Sample, &str, &str); 8] = [
    (Nil, "nil", "nil"),
    (Bool(true), "true", "true"),
    (Bool(false), "false", "false"),
    (
        Int(i64::MIN),
        "-9223372036854775808",
        "-9223372036854775808",
    ),
    (Int(0), "0", "0"),
    (
        Text("a\"\\\n\té\r'"),
        "a\"\\\n\té\r'",
        "\"a\\\"\\\\\\n\\té\r'\"",
    ),
    (Fun(255), "fn#255", "fn#255"),
    (Obj(4095), "obj#4095", "obj#4095"),
];

fn text(alloc: Global, characters: &str) -> Result<DynText, Fail> {
    Ok(DynText::from_str(alloc, characters)?.ok_or("too long")?)
}

fn value(alloc: Global, sample: Sample) -> Result<Value, Fail> {
    Ok(match sample {
        Nil => Value::Nil,
        Bool(truth) => Value::Bool(truth),
        Int(number) => Value::Int(number),
        Text(characters) => Value::Text(text(alloc, characters)?),
        Fun(number) => Value::Fun(number),
        Obj(number) => Value::Obj(number),
    })
}

/// What is printed of an operation's answer: the plain text of a value, or the text of a fault.
fn printed(alloc: Global, answer: &Result<Value, Fault>) -> Result<Vec<u8>, AllocError> {
    let mut out = Vec::new(alloc);
    match answer {
        Ok(value) => value.print_to(&mut out)?,
        Err(fault) => fault.print_to(&mut out)?,
    }
    Ok(out)
}

#[test]
fn operations(rt: HostRuntime) -> Result<(), Fail> {
    let alloc = rt.alloc();
    for &(left, op, right, want) in &BINARY {
        let answer = binary(alloc, op, &value(alloc, left)?, &value(alloc, right)?)?;
        assert!(rt;
            printed(alloc, &answer)?.as_slice() == want.as_bytes(),
            "{left:?} {op:?} {right:?}"
        );
    }
    for &(op, operand, want) in &UNARY {
        let answer = unary(op, &value(alloc, operand)?);
        assert!(rt;
            printed(alloc, &answer)?.as_slice() == want.as_bytes(),
            "{op:?} {operand:?}"
        );
    }
    Ok(())
}

/// The text with this character `count` times.
fn repeated(alloc: Global, character: char, count: u32) -> Result<DynText, Fail> {
    let mut characters = String::new(alloc);
    for _ in 0..count {
        characters.push(character)?;
    }
    text(alloc, characters.as_str())
}

/// Texts of one character, so many times, and what is joined to them.
static LONG: [(char, u32, &str, bool); 7] = [
    ('a', 65_535, "b", true),
    ('a', 65_535, "é", false),
    ('a', 65_536, "", true),
    ('a', 65_536, "b", false),
    ('€', 21_845, "b", true),
    ('€', 21_845, "é", false),
    ('𝄞', 16_384, "b", false),
];

#[test]
fn long_texts(rt: HostRuntime) -> Result<(), Fail> {
    let alloc = rt.alloc();
    for &(character, count, next, fits) in &LONG {
        let left = repeated(alloc, character, count)?;
        let mut joined = String::from_str(alloc, left.as_str())?;
        joined.push_str(next)?;
        assert!(rt; DynText::from_str(alloc, joined.as_str())?.is_some() == fits);
        let answer = binary(
            alloc,
            BinOp::Add,
            &Value::Text(left),
            &value(alloc, Text(next))?,
        )?;
        let want = if fits { joined.as_bytes() } else { b"TextLong" };
        assert!(rt;
            printed(alloc, &answer)?.as_slice() == want,
            "{character} {count} {next}"
        );
    }
    Ok(())
}

#[test]
fn texts(rt: HostRuntime) -> Result<(), Fail> {
    let alloc = rt.alloc();
    for &(sample, plain, quoted) in &TEXTS {
        let value = value(alloc, sample)?.copy()?;
        let mut out = Vec::new(alloc);
        value.print_to(&mut out)?;
        out.push(b' ')?;
        value.quote_to(&mut out)?;
        let want = format!(in alloc; "{plain} {quoted}")?;
        assert!(rt; out.as_slice() == want.as_bytes(), "{sample:?}");
        assert!(rt; value.to_text(alloc)?.as_str() == plain, "{sample:?}");
    }
    let faults = [
        Fault::NoMember(text(alloc, "x")?),
        Fault::NotIndexable(Kind::Nil),
        Fault::NotCallable(Kind::Int),
        Fault::WrongCount(2, 1),
        Fault::NoParameter(text(alloc, "a\"b")?.copy()?),
        Fault::NotCreatable(Kind::Text),
        Fault::MembersFull,
    ];
    let mut out = Vec::new(alloc);
    for fault in &faults {
        fault.copy()?.print_to(&mut out)?;
        out.push(b'\n')?;
    }
    let want = "NoMember \"x\"\nNotIndexable Nil\nNotCallable Int\nWrongCount 2 1\n\
        NoParameter \"a\\\"b\"\nNotCreatable Text\nMembersFull\n";
    assert!(rt; out.as_slice() == want.as_bytes());
    Ok(())
}
