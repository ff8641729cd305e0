use super::{Bool, Fun, Int, Nil, Obj, Sample, Text, printed, text, value};
use crate::{Fault, Kind, Outcome, Value, convert};
use std::test::Fail;

static CONVERSIONS: [(Sample, Kind, &str); 45] = [
    (Nil, Kind::Nil, "nil"),
    (Nil, Kind::Bool, "false"),
    (Nil, Kind::Int, "NoConvert"),
    (Nil, Kind::Text, "nil"),
    (Nil, Kind::Fun, "NoConvert"),
    (Nil, Kind::Obj, "NoConvert"),
    (Bool(false), Kind::Nil, "NoConvert"),
    (Bool(true), Kind::Bool, "true"),
    (Bool(true), Kind::Int, "1"),
    (Bool(false), Kind::Int, "0"),
    (Bool(false), Kind::Text, "false"),
    (Int(0), Kind::Nil, "NoConvert"),
    (Int(0), Kind::Bool, "false"),
    (Int(-1), Kind::Bool, "true"),
    (Int(i64::MIN), Kind::Bool, "true"),
    (Int(i64::MIN), Kind::Int, "-9223372036854775808"),
    (Int(i64::MIN), Kind::Text, "-9223372036854775808"),
    (Int(5), Kind::Fun, "NoConvert"),
    (Text(""), Kind::Int, "NoConvert"),
    (Text("0"), Kind::Int, "0"),
    (Text("-0"), Kind::Int, "NoConvert"),
    (Text("-1"), Kind::Int, "-1"),
    (Text("+1"), Kind::Int, "NoConvert"),
    (Text(" 1"), Kind::Int, "NoConvert"),
    (Text("1 "), Kind::Int, "NoConvert"),
    (Text("007"), Kind::Int, "NoConvert"),
    (Text("1e3"), Kind::Int, "NoConvert"),
    (Text("-"), Kind::Int, "NoConvert"),
    (Text("٣"), Kind::Int, "NoConvert"),
    (
        Text("9223372036854775807"),
        Kind::Int,
        "9223372036854775807",
    ),
    (Text("9223372036854775808"), Kind::Int, "NoConvert"),
    (
        Text("-9223372036854775808"),
        Kind::Int,
        "-9223372036854775808",
    ),
    (Text("-9223372036854775809"), Kind::Int, "NoConvert"),
    (Text("true"), Kind::Bool, "NoConvert"),
    (Text("nil"), Kind::Nil, "NoConvert"),
    (Text("é"), Kind::Text, "é"),
    (Fun(3), Kind::Fun, "fn#3"),
    (Fun(3), Kind::Text, "fn#3"),
    (Fun(3), Kind::Int, "NoConvert"),
    (Fun(3), Kind::Obj, "NoConvert"),
    (Obj(9), Kind::Obj, "obj#9"),
    (Obj(9), Kind::Text, "obj#9"),
    (Obj(9), Kind::Bool, "NoConvert"),
    (Obj(9), Kind::Fun, "NoConvert"),
    (Obj(0), Kind::Nil, "NoConvert"),
];

#[test]
fn conversions(rt: HostRuntime) -> Result<(), Fail> {
    let alloc = rt.alloc();
    for (sample, to, want) in &CONVERSIONS {
        let answer = convert(alloc, &value(alloc, *sample)?, *to)?;
        assert!(rt;
            printed(alloc, &answer)?.as_slice() == want.as_bytes(),
            "{sample:?} {to:?}"
        );
    }
    Ok(())
}

/// The characters at some places of a text of one to four bytes a character.
static CHARACTERS: [(i64, Option<&str>); 9] = [
    (i64::MIN, None),
    (-1, None),
    (0, Some("a")),
    (1, Some("é")),
    (2, Some("€")),
    (3, Some("𝄞")),
    (4, None),
    (10, None),
    (i64::MAX, None),
];

#[test]
fn characters(rt: HostRuntime) -> Result<(), Fail> {
    let alloc = rt.alloc();
    let text = text(alloc, "aé€𝄞")?;
    assert!(rt; text.length() == 4);
    for (index, want) in &CHARACTERS {
        let found = text.char_at(alloc, *index)?;
        assert!(rt; found.is_some() == want.is_some(), "{index}");
        if let (Some(found), Some(want)) = (found, want) {
            assert!(rt; found.as_str() == *want, "{index}");
        }
    }
    Ok(())
}

#[test]
fn outcomes(rt: HostRuntime) -> Result<(), Fail> {
    let alloc = rt.alloc();
    let outcomes = [
        Outcome::Value(Value::Text(text(alloc, "a")?)),
        Outcome::Call(1),
        Outcome::Make(1),
        Outcome::Fault(Fault::NoMember(text(alloc, "a")?)),
    ];
    assert!(rt; Outcome::of(Ok(Value::Obj(2))).same(&Outcome::Value(Value::Obj(2))));
    assert!(rt; Outcome::of(Err(Fault::NoIndex)).same(&Outcome::Fault(Fault::NoIndex)));
    for (place, outcome) in outcomes.iter().enumerate() {
        let copy = outcome.copy()?;
        for (other_place, other) in outcomes.iter().enumerate() {
            assert!(rt;
                copy.same(other) == (place == other_place),
                "{outcome:?} {other:?}"
            );
        }
    }
    Ok(())
}
