//! What is bound on the members of objects, by the class of the object; expected texts are worked out by hand.
use crate::tests::operation::Asked::{
    Delete, DeleteIndex, Get, GetIndex, InvokeMember, Set, SetIndex,
};
use crate::tests::operation::Operand::{Bool, Fun, Int, Nil, Obj, Text};
use crate::tests::operation::{LONGEST, Row, TOO_LONG};

/// As many names as an object may have members, less one.
const SIXTY_THREE: &[&str] = &[
    "m0", "m1", "m2", "m3", "m4", "m5", "m6", "m7", "m8", "m9", "m10", "m11", "m12", "m13", "m14",
    "m15", "m16", "m17", "m18", "m19", "m20", "m21", "m22", "m23", "m24", "m25", "m26", "m27",
    "m28", "m29", "m30", "m31", "m32", "m33", "m34", "m35", "m36", "m37", "m38", "m39", "m40",
    "m41", "m42", "m43", "m44", "m45", "m46", "m47", "m48", "m49", "m50", "m51", "m52", "m53",
    "m54", "m55", "m56", "m57", "m58", "m59", "m60", "m61", "m62",
];

/// As many names as an object may have members.
pub(crate) const SIXTY_FOUR: &[&str] = &[
    "m0", "m1", "m2", "m3", "m4", "m5", "m6", "m7", "m8", "m9", "m10", "m11", "m12", "m13", "m14",
    "m15", "m16", "m17", "m18", "m19", "m20", "m21", "m22", "m23", "m24", "m25", "m26", "m27",
    "m28", "m29", "m30", "m31", "m32", "m33", "m34", "m35", "m36", "m37", "m38", "m39", "m40",
    "m41", "m42", "m43", "m44", "m45", "m46", "m47", "m48", "m49", "m50", "m51", "m52", "m53",
    "m54", "m55", "m56", "m57", "m58", "m59", "m60", "m61", "m62", "m63",
];

/// Operations on the member of a name.
pub(crate) static MEMBERS: [Row; 23] = [
    (
        Get("x"),
        &[Obj],
        &[],
        "(and (kind 0 Obj) (class 0)) (throw NoMember \"x\")",
    ),
    (
        Get("x"),
        &[Obj],
        &["x", "y"],
        "(and (kind 0 Obj) (class 2)) (read 0)",
    ),
    (
        Get("y"),
        &[Obj],
        &["x", "y"],
        "(and (kind 0 Obj) (class 2)) (read 1)",
    ),
    (
        Get("z"),
        &[Obj],
        &["x", "y"],
        "(and (kind 0 Obj) (class 2)) (throw NoMember \"z\")",
    ),
    (
        Get("length"),
        &[Obj],
        &[],
        "(and (kind 0 Obj) (class 0)) (throw NoMember \"length\")",
    ),
    (
        Get(LONGEST),
        &[Obj],
        &[LONGEST],
        "(and (kind 0 Obj) (class 1)) (read 0)",
    ),
    (
        Get("m63"),
        &[Obj],
        SIXTY_FOUR,
        "(and (kind 0 Obj) (class 64)) (read 63)",
    ),
    (
        Set("x"),
        &[Obj, Int],
        &[],
        "(and (kind 0 Obj) (class 0)) (append 1 1)",
    ),
    (
        Set("y"),
        &[Obj, Nil],
        &["x", "y"],
        "(and (kind 0 Obj) (class 2)) (write 1 1)",
    ),
    (
        Set("z"),
        &[Obj, Obj],
        &["x", "y"],
        "(and (kind 0 Obj) (class 2)) (append 3 1)",
    ),
    (
        Set(LONGEST),
        &[Obj, Fun(1)],
        &[],
        "(and (kind 0 Obj) (class 0)) (append 1 1)",
    ),
    (
        Set("m63"),
        &[Obj, Text("x")],
        SIXTY_THREE,
        "(and (kind 0 Obj) (class 63)) (append 64 1)",
    ),
    (
        Set("m63"),
        &[Obj, Bool],
        SIXTY_FOUR,
        "(and (kind 0 Obj) (class 64)) (write 63 1)",
    ),
    (
        Set("m64"),
        &[Obj, Int],
        SIXTY_FOUR,
        "(and (kind 0 Obj) (class 64)) (throw MembersFull)",
    ),
    (
        Delete("x"),
        &[Obj],
        &["x"],
        "(and (kind 0 Obj) (class 1)) (remove 0 0)",
    ),
    (
        Delete("x"),
        &[Obj],
        &["x", "y"],
        "(and (kind 0 Obj) (class 2)) (remove 0 3)",
    ),
    (
        Delete("y"),
        &[Obj],
        &["x", "y"],
        "(and (kind 0 Obj) (class 2)) (remove 1 1)",
    ),
    (
        Delete("z"),
        &[Obj],
        &["x", "y"],
        "(and (kind 0 Obj) (class 2)) (throw NoMember \"z\")",
    ),
    (
        Delete("m0"),
        &[Obj],
        SIXTY_FOUR,
        "(and (kind 0 Obj) (class 64)) (remove 0 65)",
    ),
    (
        InvokeMember("y", 0, &[]),
        &[Obj],
        &["x", "y"],
        "(and (kind 0 Obj) (class 2)) (read 1)",
    ),
    (
        InvokeMember("x", 2, &["to"]),
        &[Obj, Int, Nil],
        &["x", "y"],
        "(and (kind 0 Obj) (class 2)) (read 0)",
    ),
    (
        InvokeMember("z", 1, &[]),
        &[Obj, Obj],
        &["x", "y"],
        "(and (kind 0 Obj) (class 2)) (throw NoMember \"z\")",
    ),
    (
        InvokeMember("m63", 0, &[]),
        &[Obj],
        SIXTY_FOUR,
        "(and (kind 0 Obj) (class 64)) (read 63)",
    ),
];

/// Operations by a key: a text of at most 64 bytes names a member.
pub(crate) static KEYS: [Row; 30] = [
    (
        GetIndex,
        &[Obj, Text("x")],
        &["x", "y"],
        "(and (and (kind 0 Obj) (class 2)) (key 1 \"x\")) (read 0)",
    ),
    (
        GetIndex,
        &[Obj, Text("z")],
        &["x", "y"],
        "(and (and (kind 0 Obj) (class 2)) (key 1 \"z\")) (throw NoMember \"z\")",
    ),
    (
        GetIndex,
        &[Obj, Text("")],
        &[""],
        "(and (and (kind 0 Obj) (class 1)) (key 1 \"\")) (read 0)",
    ),
    (
        GetIndex,
        &[Obj, Text(LONGEST)],
        &[LONGEST],
        "(and (and (kind 0 Obj) (class 1)) (key 1 \"n012345678901234567890123456789012345678901234567890123456789abc\")) (read 0)",
    ),
    (
        GetIndex,
        &[Obj, Text("m63")],
        SIXTY_FOUR,
        "(and (and (kind 0 Obj) (class 64)) (key 1 \"m63\")) (read 63)",
    ),
    (
        SetIndex,
        &[Obj, Text("y"), Int],
        &["x", "y"],
        "(and (and (kind 0 Obj) (class 2)) (key 1 \"y\")) (write 1 2)",
    ),
    (
        SetIndex,
        &[Obj, Text("z"), Int],
        &["x", "y"],
        "(and (and (kind 0 Obj) (class 2)) (key 1 \"z\")) (append 3 2)",
    ),
    (
        SetIndex,
        &[Obj, Text(LONGEST), Nil],
        &[],
        "(and (and (kind 0 Obj) (class 0)) (key 1 \"n012345678901234567890123456789012345678901234567890123456789abc\")) (append 1 2)",
    ),
    (
        SetIndex,
        &[Obj, Text("m64"), Int],
        SIXTY_FOUR,
        "(and (and (kind 0 Obj) (class 64)) (key 1 \"m64\")) (throw MembersFull)",
    ),
    (
        DeleteIndex,
        &[Obj, Text("x")],
        &["x", "y"],
        "(and (and (kind 0 Obj) (class 2)) (key 1 \"x\")) (remove 0 3)",
    ),
    (
        DeleteIndex,
        &[Obj, Text("z")],
        &["x", "y"],
        "(and (and (kind 0 Obj) (class 2)) (key 1 \"z\")) (throw NoMember \"z\")",
    ),
    (
        DeleteIndex,
        &[Obj, Text(LONGEST)],
        &["x", LONGEST],
        "(and (and (kind 0 Obj) (class 2)) (key 1 \"n012345678901234567890123456789012345678901234567890123456789abc\")) (remove 1 1)",
    ),
    (
        GetIndex,
        &[Obj, Text(TOO_LONG)],
        &["x", "y"],
        "(and (kind 0 Obj) (long 1)) (throw NoIndex)",
    ),
    (
        SetIndex,
        &[Obj, Text(TOO_LONG), Int],
        SIXTY_FOUR,
        "(and (kind 0 Obj) (long 1)) (throw NoIndex)",
    ),
    (
        DeleteIndex,
        &[Obj, Text(TOO_LONG)],
        &[],
        "(and (kind 0 Obj) (long 1)) (throw NoIndex)",
    ),
    (
        GetIndex,
        &[Obj, Nil],
        &["x", "y"],
        "(and (kind 0 Obj) (kind 1 Nil)) (throw NoIndex)",
    ),
    (
        SetIndex,
        &[Obj, Nil, Int],
        &[],
        "(and (kind 0 Obj) (kind 1 Nil)) (throw NoIndex)",
    ),
    (
        DeleteIndex,
        &[Obj, Nil],
        SIXTY_FOUR,
        "(and (kind 0 Obj) (kind 1 Nil)) (throw NoIndex)",
    ),
    (
        GetIndex,
        &[Obj, Bool],
        &["x", "y"],
        "(and (kind 0 Obj) (kind 1 Bool)) (throw NoIndex)",
    ),
    (
        SetIndex,
        &[Obj, Bool, Int],
        &[],
        "(and (kind 0 Obj) (kind 1 Bool)) (throw NoIndex)",
    ),
    (
        DeleteIndex,
        &[Obj, Bool],
        SIXTY_FOUR,
        "(and (kind 0 Obj) (kind 1 Bool)) (throw NoIndex)",
    ),
    (
        GetIndex,
        &[Obj, Int],
        &["x", "y"],
        "(and (kind 0 Obj) (kind 1 Int)) (throw NoIndex)",
    ),
    (
        SetIndex,
        &[Obj, Int, Int],
        &[],
        "(and (kind 0 Obj) (kind 1 Int)) (throw NoIndex)",
    ),
    (
        DeleteIndex,
        &[Obj, Int],
        SIXTY_FOUR,
        "(and (kind 0 Obj) (kind 1 Int)) (throw NoIndex)",
    ),
    (
        GetIndex,
        &[Obj, Fun(2)],
        &["x", "y"],
        "(and (kind 0 Obj) (kind 1 Fun)) (throw NoIndex)",
    ),
    (
        SetIndex,
        &[Obj, Fun(2), Int],
        &[],
        "(and (kind 0 Obj) (kind 1 Fun)) (throw NoIndex)",
    ),
    (
        DeleteIndex,
        &[Obj, Fun(2)],
        SIXTY_FOUR,
        "(and (kind 0 Obj) (kind 1 Fun)) (throw NoIndex)",
    ),
    (
        GetIndex,
        &[Obj, Obj],
        &["x", "y"],
        "(and (kind 0 Obj) (kind 1 Obj)) (throw NoIndex)",
    ),
    (
        SetIndex,
        &[Obj, Obj, Int],
        &[],
        "(and (kind 0 Obj) (kind 1 Obj)) (throw NoIndex)",
    ),
    (
        DeleteIndex,
        &[Obj, Obj],
        SIXTY_FOUR,
        "(and (kind 0 Obj) (kind 1 Obj)) (throw NoIndex)",
    ),
];
