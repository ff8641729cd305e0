use super::Act::{self, Delete, DeleteIndex, Get, GetIndex, InvokeMember, Set, SetIndex};
use super::Sample::{Bool, Fun, Int, Nil, Obj, Text};
use super::{binder, printed, push_operands};
use crate::ObjectMembers;
use dyn_value::Outcome;
use std::alloc::{AllocError, Global};
use std::test::Fail;

/// What each operation gives, one after the other, and the members after it.
static STEPS: [(Act, &str, &str); 37] = [
    (Get("x"), "NoMember \"x\"", ""),
    (Delete("x"), "NoMember \"x\"", ""),
    (InvokeMember("x", 0, &[]), "NoMember \"x\"", ""),
    (GetIndex(Text("x")), "NoMember \"x\"", ""),
    (DeleteIndex(Text("x")), "NoMember \"x\"", ""),
    (GetIndex(Nil), "NoIndex", ""),
    (SetIndex(Int(0), Int(1)), "NoIndex", ""),
    (DeleteIndex(Bool(true)), "NoIndex", ""),
    (Set("x", Int(1)), "nil", "x 1;"),
    (Get("x"), "1", "x 1;"),
    (Get("X"), "NoMember \"X\"", "x 1;"),
    (GetIndex(Text("x")), "1", "x 1;"),
    (GetIndex(Text("X")), "NoMember \"X\"", "x 1;"),
    (InvokeMember("x", 0, &[]), "1", "x 1;"),
    (InvokeMember("x", 3, &["y"]), "1", "x 1;"),
    (InvokeMember("y", 3, &["x"]), "NoMember \"y\"", "x 1;"),
    (GetIndex(Int(0)), "NoIndex", "x 1;"),
    (GetIndex(Fun(0)), "NoIndex", "x 1;"),
    (GetIndex(Obj(0)), "NoIndex", "x 1;"),
    (DeleteIndex(Int(0)), "NoIndex", "x 1;"),
    (
        SetIndex(Text("y"), Text("a\"b")),
        "nil",
        "x 1;y \"a\\\"b\";",
    ),
    (SetIndex(Nil, Text("a\"b")), "NoIndex", "x 1;y \"a\\\"b\";"),
    (Set("x", Nil), "nil", "x nil;y \"a\\\"b\";"),
    (Get("x"), "nil", "x nil;y \"a\\\"b\";"),
    (Get("y"), "\"a\\\"b\"", "x nil;y \"a\\\"b\";"),
    (Set("z", Obj(3)), "nil", "x nil;y \"a\\\"b\";z obj#3;"),
    (Delete("y"), "nil", "x nil;z obj#3;"),
    (Delete("y"), "NoMember \"y\"", "x nil;z obj#3;"),
    (Set("y", Fun(2)), "nil", "x nil;z obj#3;y fn#2;"),
    (InvokeMember("y", 16, &[]), "fn#2", "x nil;z obj#3;y fn#2;"),
    (SetIndex(Text("z"), Int(7)), "nil", "x nil;z 7;y fn#2;"),
    (DeleteIndex(Text("y")), "nil", "x nil;z 7;"),
    (DeleteIndex(Text("y")), "NoMember \"y\"", "x nil;z 7;"),
    (SetIndex(Text(""), Bool(false)), "nil", "x nil;z 7; false;"),
    (Get(""), "false", "x nil;z 7; false;"),
    (Delete("x"), "nil", "z 7; false;"),
    (DeleteIndex(Text("")), "nil", "z 7;"),
];

/// A name of 64 bytes, and the same without its last.
const LONG: &str = "a23456789b23456789c23456789d23456789e23456789f23456789g23456789h";

const SHORTER: &str = "a23456789b23456789c23456789d23456789e23456789f23456789g23456789";

/// A text of 65 bytes in 64 characters.
const TOO_LONG: &str = "é23456789b23456789c23456789d23456789e23456789f23456789g23456789h";

/// What operations with keys of 63, 64 and 65 bytes give.
static LONG_KEYS: [(Act, &str); 11] = [
    (Set(LONG, Int(1)), "nil"),
    (Set(SHORTER, Int(2)), "nil"),
    (Get(LONG), "1"),
    (Get(SHORTER), "2"),
    (GetIndex(Text(LONG)), "1"),
    (GetIndex(Text(SHORTER)), "2"),
    (SetIndex(Text(LONG), Int(3)), "nil"),
    (GetIndex(Text(TOO_LONG)), "NoIndex"),
    (SetIndex(Text(TOO_LONG), Int(4)), "NoIndex"),
    (DeleteIndex(Text(TOO_LONG)), "NoIndex"),
    (DeleteIndex(Text(LONG)), "nil"),
];

/// What operations on an object with the members `m0` to `m63` give.
static AT_THE_LIMIT: [(Act, &str); 13] = [
    (Set("m64", Nil), "MembersFull"),
    (SetIndex(Text("m64"), Nil), "MembersFull"),
    (Set("m0", Nil), "nil"),
    (SetIndex(Text("m63"), Nil), "nil"),
    (Delete("m5"), "nil"),
    (SetIndex(Text("m64"), Int(64)), "nil"),
    (Set("m5", Nil), "MembersFull"),
    (Get("m5"), "NoMember \"m5\""),
    (Get("m64"), "64"),
    (GetIndex(Text("m62")), "62"),
    (InvokeMember("m1", 1, &[]), "1"),
    (DeleteIndex(Text("m6")), "nil"),
    (Set("m64", Int(65)), "nil"),
];

/// The name and the value of each member.
fn shown(alloc: Global, members: &ObjectMembers) -> Result<Vec<u8>, AllocError> {
    let mut out = Vec::new(alloc);
    for member in members.members() {
        out.extend_from_slice(member.name.as_str().as_bytes())?;
        out.push(b' ')?;
        member.value.quote_to(&mut out)?;
        out.push(b';')?;
    }
    Ok(out)
}

/// Makes the operation, and says what it gave. It was foretold.
fn step(alloc: Global, members: &mut ObjectMembers, act: Act) -> Result<Outcome, Fail> {
    let binder = binder(alloc, act)?;
    let mut operands = Vec::new(alloc);
    push_operands(alloc, act, &mut operands)?;
    if !binder.is_on_members() {
        return Err("no operation on members".into());
    }
    if operands.len() >= 17 || operands.len() + 1 != binder.operand_count() as usize {
        return Err("another count of operands".into());
    }
    let foretold = members.answer(&binder, &operands)?;
    let outcome = members.step(&binder, &operands)?;
    if !foretold.same(&outcome) {
        return Err("another outcome was foretold".into());
    }
    Ok(outcome)
}

#[test]
fn steps_and_the_members_after_them(rt: HostRuntime) -> Result<(), Fail> {
    let alloc = rt.alloc();
    let mut members = ObjectMembers::new(alloc);
    for &(act, want, after) in &STEPS {
        let outcome = step(alloc, &mut members, act)?;
        assert!(rt;
            printed(alloc, &outcome)?.as_slice() == want.as_bytes(),
            "{act:?}"
        );
        assert!(rt;
            shown(alloc, &members)?.as_slice() == after.as_bytes(),
            "{act:?}"
        );
    }
    Ok(())
}

#[test]
fn keys_of_64_and_of_65_bytes(rt: HostRuntime) -> Result<(), Fail> {
    let alloc = rt.alloc();
    assert!(rt; LONG.len() == 64 && SHORTER.len() == 63 && TOO_LONG.len() == 65);
    let mut members = ObjectMembers::new(alloc);
    for &(act, want) in &LONG_KEYS {
        let outcome = step(alloc, &mut members, act)?;
        assert!(rt;
            printed(alloc, &outcome)?.as_slice() == want.as_bytes(),
            "{act:?}"
        );
    }
    assert!(rt; members.members().len() == 1);
    Ok(())
}

/// The names of 64 members.
static NAMES: [&str; 64] = [
    "m0", "m1", "m2", "m3", "m4", "m5", "m6", "m7", "m8", "m9", "m10", "m11", "m12", "m13", "m14",
    "m15", "m16", "m17", "m18", "m19", "m20", "m21", "m22", "m23", "m24", "m25", "m26", "m27",
    "m28", "m29", "m30", "m31", "m32", "m33", "m34", "m35", "m36", "m37", "m38", "m39", "m40",
    "m41", "m42", "m43", "m44", "m45", "m46", "m47", "m48", "m49", "m50", "m51", "m52", "m53",
    "m54", "m55", "m56", "m57", "m58", "m59", "m60", "m61", "m62", "m63",
];

#[test]
fn members_at_the_limit(rt: HostRuntime) -> Result<(), Fail> {
    let alloc = rt.alloc();
    let mut members = ObjectMembers::new(alloc);
    for (number, name) in NAMES.iter().enumerate() {
        step(alloc, &mut members, Set(*name, Int(number as i64)))?;
    }
    assert!(rt; members.members().len() == 64);
    for &(act, want) in &AT_THE_LIMIT {
        let outcome = step(alloc, &mut members, act)?;
        assert!(rt;
            printed(alloc, &outcome)?.as_slice() == want.as_bytes(),
            "{act:?}"
        );
    }
    let last = members.members().last().ok_or("none")?;
    assert!(rt; last.name.as_str() == "m64");
    assert!(rt; members.members().len() == 63);
    Ok(())
}
