use crate::{Binder, CallInfo, FunTable};
use dyn_value::{BinOp, DynText, Kind, UnOp};
use sqlite_items::Items;
use std::alloc::Global;
use std::test::Fail;

/// A binder as the table below writes it: with the name of a member and whether case is ignored, and with the count
/// and the names of arguments.
#[derive(Clone, Copy, Debug)]
enum Sample {
    Get(&'static str, bool),
    Set(&'static str, bool),
    Delete(&'static str, bool),
    GetIndex,
    SetIndex,
    DeleteIndex,
    Invoke(u32, &'static [&'static str]),
    InvokeMember(&'static str, bool, u32, &'static [&'static str]),
    Create(u32, &'static [&'static str]),
    Convert(Kind),
    Unary(UnOp),
    Binary(BinOp),
}

use Sample::{
    Binary, Convert, Create, Delete, DeleteIndex, Get, GetIndex, Invoke, InvokeMember, Set,
    SetIndex, Unary,
};

/// Different binders, each with its text, its count of operands, and whether it is one on members.
static BINDERS: [(Sample, &str, u32, bool); 48] = [
    (Get("x", false), "GetMember \"x\"", 1, true),
    (Get("x", true), "GetMember \"x\"", 1, true),
    (Get("X", false), "GetMember \"X\"", 1, true),
    (Get("", false), "GetMember \"\"", 1, true),
    (Get("a\"é\n", false), "GetMember \"a\\\"é\\n\"", 1, true),
    (Set("x", false), "SetMember \"x\"", 2, true),
    (Set("x", true), "SetMember \"x\"", 2, true),
    (Delete("x", false), "DeleteMember \"x\"", 1, true),
    (Delete("x", true), "DeleteMember \"x\"", 1, true),
    (GetIndex, "GetIndex", 2, true),
    (SetIndex, "SetIndex", 3, true),
    (DeleteIndex, "DeleteIndex", 2, true),
    (Invoke(0, &[]), "Invoke 0", 1, false),
    (Invoke(2, &[]), "Invoke 2", 3, false),
    (Invoke(16, &[]), "Invoke 16", 17, false),
    (Invoke(2, &["price"]), "Invoke 2 price", 3, false),
    (Invoke(3, &["price"]), "Invoke 3 price", 4, false),
    (Invoke(2, &["a", "b"]), "Invoke 2 a b", 3, false),
    (Invoke(2, &["b", "a"]), "Invoke 2 b a", 3, false),
    (Invoke(2, &["é"]), "Invoke 2 é", 3, false),
    (
        InvokeMember("m", false, 2, &[]),
        "InvokeMember \"m\" 2",
        3,
        true,
    ),
    (
        InvokeMember("m", true, 2, &[]),
        "InvokeMember \"m\" 2",
        3,
        true,
    ),
    (
        InvokeMember("n", false, 2, &[]),
        "InvokeMember \"n\" 2",
        3,
        true,
    ),
    (
        InvokeMember("m", false, 0, &[]),
        "InvokeMember \"m\" 0",
        1,
        true,
    ),
    (
        InvokeMember("m", false, 2, &["to"]),
        "InvokeMember \"m\" 2 to",
        3,
        true,
    ),
    (Create(1, &[]), "CreateInstance 1", 2, false),
    (Create(2, &[]), "CreateInstance 2", 3, false),
    (Create(1, &["a"]), "CreateInstance 1 a", 2, false),
    (Convert(Kind::Nil), "Convert Nil", 1, false),
    (Convert(Kind::Bool), "Convert Bool", 1, false),
    (Convert(Kind::Int), "Convert Int", 1, false),
    (Convert(Kind::Text), "Convert Text", 1, false),
    (Unary(UnOp::Negate), "Negate", 1, false),
    (Unary(UnOp::Not), "Not", 1, false),
    (Unary(UnOp::IsTrue), "IsTrue", 1, false),
    (Binary(BinOp::Add), "Add", 2, false),
    (Binary(BinOp::Subtract), "Subtract", 2, false),
    (Binary(BinOp::Multiply), "Multiply", 2, false),
    (Binary(BinOp::Divide), "Divide", 2, false),
    (Binary(BinOp::Modulo), "Modulo", 2, false),
    (Binary(BinOp::Equal), "Equal", 2, false),
    (Binary(BinOp::NotEqual), "NotEqual", 2, false),
    (Binary(BinOp::LessThan), "LessThan", 2, false),
    (Binary(BinOp::LessThanOrEqual), "LessThanOrEqual", 2, false),
    (Binary(BinOp::GreaterThan), "GreaterThan", 2, false),
    (
        Binary(BinOp::GreaterThanOrEqual),
        "GreaterThanOrEqual",
        2,
        false,
    ),
    (Binary(BinOp::And), "And", 2, false),
    (Binary(BinOp::Or), "Or", 2, false),
];

/// Counts and names of arguments, and whether a call may be handed them.
static CALLS: [(u32, &[&str], bool); 14] = [
    (0, &[], true),
    (16, &[], true),
    (17, &[], false),
    (u32::MAX, &[], false),
    (0, &["a"], false),
    (1, &["a"], true),
    (1, &["a", "b"], false),
    (2, &["a", "b"], true),
    (2, &["a", "a"], false),
    (2, &["a", "A"], true),
    (3, &["a", "b", "a"], false),
    (3, &["a", "b", "b"], false),
    (17, &["a"], false),
    (16, &["a", "b", "c"], true),
];

fn text(alloc: Global, characters: &str) -> Result<DynText, Fail> {
    Ok(DynText::from_str(alloc, characters)?.ok_or("too long")?)
}

fn texts(alloc: Global, names: &[&str]) -> Result<Vec<DynText>, Fail> {
    let mut texts = Vec::new(alloc);
    for name in names {
        texts.push(text(alloc, *name)?)?;
    }
    Ok(texts)
}

fn call_info(alloc: Global, count: u32, names: &[&str]) -> Result<CallInfo, Fail> {
    match CallInfo::make(count, texts(alloc, names)?) {
        Ok(info) => Ok(info),
        Err(_) => Err("no call".into()),
    }
}

fn binder(alloc: Global, sample: Sample) -> Result<Binder, Fail> {
    Ok(match sample {
        Get(name, ignore_case) => Binder::GetMember {
            name: text(alloc, name)?,
            ignore_case,
        },
        Set(name, ignore_case) => Binder::SetMember {
            name: text(alloc, name)?,
            ignore_case,
        },
        Delete(name, ignore_case) => Binder::DeleteMember {
            name: text(alloc, name)?,
            ignore_case,
        },
        GetIndex => Binder::GetIndex,
        SetIndex => Binder::SetIndex,
        DeleteIndex => Binder::DeleteIndex,
        Invoke(count, names) => Binder::Invoke {
            info: call_info(alloc, count, names)?,
        },
        InvokeMember(name, ignore_case, count, names) => Binder::InvokeMember {
            name: text(alloc, name)?,
            ignore_case,
            info: call_info(alloc, count, names)?,
        },
        Create(count, names) => Binder::CreateInstance {
            info: call_info(alloc, count, names)?,
        },
        Convert(to) => Binder::Convert { to },
        Unary(op) => Binder::UnaryOperation { op },
        Binary(op) => Binder::BinaryOperation { op },
    })
}

#[test]
fn texts_and_counts_of_all_binders(rt: HostRuntime) -> Result<(), Fail> {
    let alloc = rt.alloc();
    for &(sample, want, count, on_members) in &BINDERS {
        let binder = binder(alloc, sample)?;
        let mut out = Vec::from_slice(alloc, b"> ".as_slice())?;
        binder.print_to(&mut out)?;
        assert!(rt; &out[..2] == b"> ".as_slice());
        assert!(rt; &out[2..] == want.as_bytes(), "{sample:?}");
        assert!(rt; binder.operand_count() == count, "{sample:?}");
        assert!(rt; binder.is_on_members() == on_members, "{sample:?}");
    }
    Ok(())
}

#[test]
fn a_binder_is_the_same_as_its_copy_alone(rt: HostRuntime) -> Result<(), Fail> {
    let alloc = rt.alloc();
    for (place, row) in BINDERS.iter().enumerate() {
        let copy = binder(alloc, row.0)?.copy()?;
        for (other_place, other) in BINDERS.iter().enumerate() {
            let is_same = copy.same(&binder(alloc, other.0)?);
            assert!(rt;
                is_same == (place == other_place),
                "{:?} {:?}",
                row.0,
                other.0
            );
        }
    }
    Ok(())
}

fn are_texts(texts: &[DynText], names: &[&str]) -> bool {
    texts.len() == names.len()
        && texts
            .iter()
            .zip(names)
            .all(|(text, name)| text.as_str() == *name)
}

#[test]
fn calls_are_made_or_hand_their_names_back(rt: HostRuntime) -> Result<(), Fail> {
    let alloc = rt.alloc();
    for &(count, names, is_made) in &CALLS {
        match CallInfo::make(count, texts(alloc, names)?) {
            Ok(info) => {
                assert!(rt; is_made, "{count} {names:?}");
                assert!(rt; info.count() == count);
                assert!(rt; are_texts(info.names(), names));
                assert!(rt; info.same(&info.copy()?));
            }
            Err(back) => {
                assert!(rt; !is_made, "{count} {names:?}");
                assert!(rt; are_texts(&back, names));
            }
        }
    }
    Ok(())
}

#[test]
fn parameters_of_functions(rt: HostRuntime) -> Result<(), Fail> {
    let alloc = rt.alloc();
    let functions: [&[&str]; 3] = [&["self", "name"], &[], &["a"]];
    let mut params = Items::new(alloc);
    for names in functions {
        params.push(Items::from_vec(texts(alloc, names)?))?;
    }
    let table = FunTable { params };
    assert!(rt; table.len() == 3);
    assert!(rt; table.has_few_parameters());
    for (number, names) in [
        (0, functions[0]),
        (1, functions[1]),
        (2, functions[2]),
        (3, [].as_slice()),
    ] {
        assert!(rt; are_texts(table.parameters(number), names), "{number}");
    }
    Ok(())
}

#[test]
fn functions_of_sixteen_and_of_seventeen_parameters(rt: HostRuntime) -> Result<(), Fail> {
    let alloc = rt.alloc();
    for (count, is_few) in [(0, true), (16, true), (17, false)] {
        let mut names = Items::new(alloc);
        for _ in 0..count {
            names.push(text(alloc, "a")?)?;
        }
        let mut params = Items::new(alloc);
        params.push(Items::new(alloc))?;
        params.push(names)?;
        assert!(rt;
            FunTable { params }.has_few_parameters() == is_few,
            "{count}"
        );
    }
    Ok(())
}
