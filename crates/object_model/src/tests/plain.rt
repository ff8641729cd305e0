use super::Act::{
    self, Binary, Convert, Create, Delete, DeleteIndex, Get, GetIndex, Invoke, InvokeMember, Set,
    SetIndex, Unary,
};
use super::Sample::{self, Bool, Fun, Int, Nil, Obj, Text};
use super::{binder, printed, push_operands, text, value};
use crate::plain_outcome;
use dyn_value::{BinOp, Kind, Outcome, UnOp};
use sqlite_items::Items;
use standard_binders::FunTable;
use std::alloc::Global;
use std::test::Fail;

/// The parameters of the functions of these tables.
static FUNCTIONS: [&[&str]; 4] = [&[], &["a"], &["self", "name", "price"], &["x", "y"]];

/// What members of values that are no object give.
static ON_MEMBERS: [(Act, Sample, &str); 19] = [
    (Get("length"), Text(""), "0"),
    (Get("length"), Text("aé€𝄞"), "4"),
    (Get("Length"), Text("a"), "NoMember \"Length\""),
    (Get("lengt"), Text("a"), "NoMember \"lengt\""),
    (Get("length"), Nil, "NoMember \"length\""),
    (Get("length"), Bool(true), "NoMember \"length\""),
    (Get("length"), Int(1), "NoMember \"length\""),
    (Get("x"), Fun(0), "NoMember \"x\""),
    (Set("length", Int(1)), Text("a"), "NoMember \"length\""),
    (Set("x", Nil), Nil, "NoMember \"x\""),
    (Set("x", Nil), Int(1), "NoMember \"x\""),
    (Set("y", Fun(1)), Fun(0), "NoMember \"y\""),
    (Delete("length"), Text("a"), "NoMember \"length\""),
    (Delete("x"), Nil, "NoMember \"x\""),
    (Delete("x"), Bool(false), "NoMember \"x\""),
    (
        InvokeMember("length", 0, &[]),
        Text("a"),
        "NoMember \"length\"",
    ),
    (InvokeMember("m", 2, &["x"]), Nil, "NoMember \"m\""),
    (InvokeMember("m", 0, &[]), Fun(0), "NoMember \"m\""),
    (InvokeMember("n", 16, &[]), Int(0), "NoMember \"n\""),
];

/// What keys of values that are no object give.
static ON_KEYS: [(Act, Sample, &str); 27] = [
    (GetIndex(Int(0)), Text("aé€𝄞"), "\"a\""),
    (GetIndex(Int(1)), Text("aé€𝄞"), "\"é\""),
    (GetIndex(Int(2)), Text("aé€𝄞"), "\"€\""),
    (GetIndex(Int(3)), Text("aé€𝄞"), "\"𝄞\""),
    (GetIndex(Int(4)), Text("aé€𝄞"), "NoIndex"),
    (GetIndex(Int(-1)), Text("aé€𝄞"), "NoIndex"),
    (GetIndex(Int(i64::MAX)), Text("a"), "NoIndex"),
    (GetIndex(Int(i64::MIN)), Text("a"), "NoIndex"),
    (GetIndex(Int(0)), Text(""), "NoIndex"),
    (GetIndex(Text("a")), Text("a"), "NoIndex"),
    (GetIndex(Nil), Text("a"), "NoIndex"),
    (GetIndex(Bool(false)), Text("a"), "NoIndex"),
    (GetIndex(Obj(0)), Text("a"), "NoIndex"),
    (GetIndex(Int(0)), Nil, "NotIndexable Nil"),
    (GetIndex(Int(0)), Bool(true), "NotIndexable Bool"),
    (GetIndex(Int(0)), Int(5), "NotIndexable Int"),
    (GetIndex(Text("a")), Fun(0), "NotIndexable Fun"),
    (SetIndex(Int(0), Nil), Text("a"), "NotIndexable Text"),
    (SetIndex(Text("a"), Nil), Nil, "NotIndexable Nil"),
    (SetIndex(Int(0), Nil), Bool(true), "NotIndexable Bool"),
    (SetIndex(Int(0), Nil), Int(5), "NotIndexable Int"),
    (SetIndex(Int(0), Nil), Fun(0), "NotIndexable Fun"),
    (DeleteIndex(Int(0)), Text("a"), "NotIndexable Text"),
    (DeleteIndex(Text("a")), Nil, "NotIndexable Nil"),
    (DeleteIndex(Int(0)), Bool(true), "NotIndexable Bool"),
    (DeleteIndex(Int(0)), Int(5), "NotIndexable Int"),
    (DeleteIndex(Int(0)), Fun(0), "NotIndexable Fun"),
];

/// What calls and creations give.
static CALLS: [(Act, Sample, &str); 38] = [
    (Invoke(0, &[]), Fun(0), "call 0"),
    (Invoke(1, &[]), Fun(0), "WrongCount 0 1"),
    (Invoke(0, &[]), Fun(1), "WrongCount 1 0"),
    (Invoke(1, &[]), Fun(1), "call 1"),
    (Invoke(1, &["a"]), Fun(1), "call 1"),
    (Invoke(1, &["A"]), Fun(1), "NoParameter \"A\""),
    (Invoke(2, &[]), Fun(1), "WrongCount 1 2"),
    (Invoke(16, &[]), Fun(1), "WrongCount 1 16"),
    (Invoke(3, &[]), Fun(2), "call 2"),
    (Invoke(3, &["price"]), Fun(2), "call 2"),
    (Invoke(3, &["name"]), Fun(2), "NoParameter \"name\""),
    (Invoke(3, &["self"]), Fun(2), "NoParameter \"self\""),
    (Invoke(3, &["name", "price"]), Fun(2), "call 2"),
    (Invoke(3, &["price", "name"]), Fun(2), "call 2"),
    (
        Invoke(3, &["price", "self"]),
        Fun(2),
        "NoParameter \"self\"",
    ),
    (Invoke(3, &["size", "self"]), Fun(2), "NoParameter \"size\""),
    (Invoke(3, &["self", "size"]), Fun(2), "NoParameter \"self\""),
    (Invoke(3, &["price", "name", "self"]), Fun(2), "call 2"),
    (
        Invoke(3, &["price", "name", "size"]),
        Fun(2),
        "NoParameter \"size\"",
    ),
    (Invoke(2, &["size"]), Fun(2), "WrongCount 3 2"),
    (Invoke(2, &["y"]), Fun(3), "call 3"),
    (Invoke(2, &["x"]), Fun(3), "NoParameter \"x\""),
    (Invoke(0, &[]), Nil, "NotCallable Nil"),
    (Invoke(1, &["a"]), Bool(true), "NotCallable Bool"),
    (Invoke(1, &[]), Int(1), "NotCallable Int"),
    (Invoke(0, &[]), Text("f"), "NotCallable Text"),
    (Invoke(0, &[]), Obj(0), "NotCallable Obj"),
    (Create(0, &[]), Fun(0), "WrongCount 0 1"),
    (Create(0, &[]), Fun(1), "make 1"),
    (Create(1, &["a"]), Fun(1), "WrongCount 1 2"),
    (Create(2, &[]), Fun(2), "make 2"),
    (Create(2, &["price", "name"]), Fun(2), "make 2"),
    (Create(2, &["name", "self"]), Fun(2), "NoParameter \"self\""),
    (Create(3, &[]), Fun(2), "WrongCount 3 4"),
    (Create(1, &["x"]), Fun(3), "NoParameter \"x\""),
    (Create(0, &[]), Nil, "NotCreatable Nil"),
    (Create(2, &["a"]), Text("f"), "NotCreatable Text"),
    (Create(0, &[]), Obj(0), "NotCreatable Obj"),
];

/// What conversions and operators give.
static OPERATORS: [(Act, Sample, &str); 24] = [
    (Convert(Kind::Text), Int(-5), "\"-5\""),
    (Convert(Kind::Text), Fun(3), "\"fn#3\""),
    (Convert(Kind::Text), Obj(0), "\"obj#0\""),
    (Convert(Kind::Int), Text("12"), "12"),
    (Convert(Kind::Int), Text("012"), "NoConvert"),
    (Convert(Kind::Int), Bool(true), "1"),
    (Convert(Kind::Int), Nil, "NoConvert"),
    (Convert(Kind::Bool), Nil, "false"),
    (Convert(Kind::Bool), Int(2), "true"),
    (Convert(Kind::Bool), Text("true"), "NoConvert"),
    (Convert(Kind::Nil), Nil, "nil"),
    (Convert(Kind::Fun), Fun(3), "fn#3"),
    (Convert(Kind::Obj), Fun(3), "NoConvert"),
    (Unary(UnOp::Negate), Int(5), "-5"),
    (Unary(UnOp::Negate), Int(i64::MIN), "Overflow"),
    (Unary(UnOp::Not), Nil, "true"),
    (Unary(UnOp::IsTrue), Bool(true), "true"),
    (Unary(UnOp::IsTrue), Int(1), "NoOperator"),
    (Binary(BinOp::Add, Int(2)), Int(1), "3"),
    (Binary(BinOp::Subtract, Int(2)), Int(1), "-1"),
    (Binary(BinOp::Add, Int(1)), Int(i64::MAX), "Overflow"),
    (Binary(BinOp::Add, Nil), Int(1), "NoOperator"),
    (Binary(BinOp::Add, Text("c")), Text("ab"), "\"abc\""),
    (Binary(BinOp::Equal, Obj(1)), Obj(1), "true"),
];

fn functions(alloc: Global) -> Result<FunTable, Fail> {
    let mut params = Items::new(alloc);
    for names in &FUNCTIONS {
        let mut texts = Items::new(alloc);
        for name in *names {
            texts.push(text(alloc, *name)?)?;
        }
        params.push(texts)?;
    }
    Ok(FunTable { params })
}

/// What the operation gives on a target that is no object, or is only called.
fn on_value(
    alloc: Global,
    functions: &FunTable,
    act: Act,
    target: Sample,
) -> Result<Outcome, Fail> {
    let binder = binder(alloc, act)?;
    let mut operands = Vec::new(alloc);
    operands.push(value(alloc, target)?)?;
    push_operands(alloc, act, &mut operands)?;
    if operands.len() != binder.operand_count() as usize {
        return Err("another count of operands".into());
    }
    if !functions.has_few_parameters() {
        return Err("many parameters".into());
    }
    Ok(plain_outcome(alloc, functions, &binder, &operands)?)
}

#[test]
fn operations_that_look_at_no_object(rt: HostRuntime) -> Result<(), Fail> {
    let alloc = rt.alloc();
    let functions = functions(alloc)?;
    for table in [
        ON_MEMBERS.as_slice(),
        ON_KEYS.as_slice(),
        CALLS.as_slice(),
        OPERATORS.as_slice(),
    ] {
        for &(act, target, want) in table {
            let outcome = on_value(alloc, &functions, act, target)?;
            assert!(rt;
                printed(alloc, &outcome)?.as_slice() == want.as_bytes(),
                "{act:?} {target:?}"
            );
        }
    }
    Ok(())
}
