//! What the nodes of members print, for each binder on members; expected texts are worked out by hand.
use crate::Reach;
use dyn_value::DynText;
use expr_tree::Tree;
use standard_binders::{Binder, CallInfo};
use std::alloc::Global;
use std::test::Fail;

fn text(alloc: Global, characters: &str) -> Result<DynText, Fail> {
    Ok(DynText::from_str(alloc, characters)?.ok_or("too long")?)
}

/// The text of the node by which the operation of a binder reaches the member `x`.
fn printed(
    alloc: Global,
    binder: &Binder,
    place: Option<u16>,
    full: bool,
) -> Result<Vec<u8>, Fail> {
    let node = Reach::of(binder).node(&text(alloc, "x")?, place, full, 7)?;
    let tree = Tree::make(vec![in alloc; node]?).ok().ok_or("no tree")?;
    let mut out = Vec::new(alloc);
    tree.print_to(&mut out)?;
    Ok(out)
}

#[test]
fn nodes_that_reach_a_member(rt: HostRuntime) -> Result<(), Fail> {
    let alloc = rt.alloc();
    let name = text(alloc, "x")?;
    let info = CallInfo::make(0, Vec::new(alloc))
        .ok()
        .ok_or("no arguments")?;
    let get = Binder::GetMember {
        name: name.copy()?,
        ignore_case: false,
    };
    let set = Binder::SetMember {
        name: name.copy()?,
        ignore_case: false,
    };
    let delete = Binder::DeleteMember {
        name: name.copy()?,
        ignore_case: false,
    };
    let call = Binder::InvokeMember {
        name,
        ignore_case: false,
        info,
    };
    let absent = "(throw NoMember \"x\")";
    let cases = vec![in alloc;
        (get, "(read 2)", absent, absent),
        (call, "(read 2)", absent, absent),
        (set, "(write 2 1)", "(append 7 1)", "(throw MembersFull)"),
        (delete, "(remove 2 7)", absent, absent),
        (Binder::GetIndex, "(read 2)", absent, absent),
        (
            Binder::SetIndex,
            "(write 2 2)",
            "(append 7 2)",
            "(throw MembersFull)"
        ),
        (Binder::DeleteIndex, "(remove 2 7)", absent, absent),
    ]?;
    for (binder, present, room, full) in cases {
        assert!(rt;
            printed(alloc, &binder, Some(2), false)?.as_slice() == present.as_bytes(),
            "{present}"
        );
        assert!(rt;
            printed(alloc, &binder, Some(2), true)?.as_slice() == present.as_bytes(),
            "{present}"
        );
        assert!(rt;
            printed(alloc, &binder, None, false)?.as_slice() == room.as_bytes(),
            "{room}"
        );
        assert!(rt;
            printed(alloc, &binder, None, true)?.as_slice() == full.as_bytes(),
            "{full}"
        );
    }
    Ok(())
}
