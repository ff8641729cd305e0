ghost use Rattle.std.specs.Prelude.{◌≡◌, ◌↔◌, ◌++◌, IsTrue, IfOk, OnOk, OnErr, encode_utf8_all};
ghost use Rattle.standard_binders.specs.Binders.{operand_count_of, is_on_members, binder_text};

use crate::call_info::CallInfo;
use dyn_value::{BinOp, DynText, Kind, UnOp};
use std::alloc::AllocError;

/// What an operation is asked to do. Sites whose binders are the same share what they learn.
///
/// The operands of an operation are its target, then the key of an index, then the value that is set or the
/// arguments of a call, the named ones last.
///
/// The binders of a member carry its name, and whether the case of its letters is ignored; no binder that is
/// made so far ignores it.
#[derive(Debug, Drop)]
pub enum Binder {
    /// Reads a member.
    GetMember {
        name: DynText,
        ignore_case: bool,
    },
    /// Writes a member, or adds it.
    SetMember {
        name: DynText,
        ignore_case: bool,
    },
    /// Removes a member.
    DeleteMember {
        name: DynText,
        ignore_case: bool,
    },
    /// Reads at a key.
    GetIndex,
    /// Writes at a key.
    SetIndex,
    /// Removes what stands at a key.
    DeleteIndex,
    /// Calls the target.
    Invoke {
        info: CallInfo,
    },
    /// Reads the member that is to be called with these arguments.
    InvokeMember {
        name: DynText,
        ignore_case: bool,
        info: CallInfo,
    },
    /// Makes an object by the target.
    CreateInstance {
        info: CallInfo,
    },
    /// Converts the target to a kind.
    Convert {
        to: Kind,
    },
    /// An operator with one operand.
    UnaryOperation {
        op: UnOp,
    },
    /// An operator with two operands.
    BinaryOperation {
        op: BinOp,
    },
}

impl Binder {
    /// How many operands the operation has, its target counted too.
    pub fn operand_count(&self) -> u32
        ensures { result ≡ operand_count_of self.now }
    {
        match self {
            Binder::GetMember { .. }
            | Binder::DeleteMember { .. }
            | Binder::Convert { .. }
            | Binder::UnaryOperation { .. } => 1,
            Binder::SetMember { .. }
            | Binder::GetIndex
            | Binder::DeleteIndex
            | Binder::BinaryOperation { .. } => 2,
            Binder::SetIndex => 3,
            Binder::Invoke { info }
            | Binder::InvokeMember { info, .. }
            | Binder::CreateInstance { info } => info.count() + 1,
        }
    }

    /// Whether its operation is one on an object's members, where its target is an object.
    pub fn is_on_members(&self) -> bool
        ensures { result ≡ is_on_members self.now }
    {
        match self {
            Binder::GetMember { .. }
            | Binder::SetMember { .. }
            | Binder::DeleteMember { .. }
            | Binder::GetIndex
            | Binder::SetIndex
            | Binder::DeleteIndex
            | Binder::InvokeMember { .. } => true,
            Binder::Invoke { .. }
            | Binder::CreateInstance { .. }
            | Binder::Convert { .. }
            | Binder::UnaryOperation { .. }
            | Binder::BinaryOperation { .. } => false,
        }
    }

    /// Whether all parts of the two are equal.
    pub fn same(&self, other: &Binder) -> bool
        ensures { IsTrue result ↔ (self.now ≡ other.now) }
    {
        match (self, other) {
            (
                Binder::GetMember { name, ignore_case },
                Binder::GetMember {
                    name: other_name,
                    ignore_case: other_ignores,
                },
            ) => name.same(other_name) && ignore_case == other_ignores,
            (
                Binder::SetMember { name, ignore_case },
                Binder::SetMember {
                    name: other_name,
                    ignore_case: other_ignores,
                },
            ) => name.same(other_name) && ignore_case == other_ignores,
            (
                Binder::DeleteMember { name, ignore_case },
                Binder::DeleteMember {
                    name: other_name,
                    ignore_case: other_ignores,
                },
            ) => name.same(other_name) && ignore_case == other_ignores,
            (Binder::GetIndex, Binder::GetIndex) => true,
            (Binder::SetIndex, Binder::SetIndex) => true,
            (Binder::DeleteIndex, Binder::DeleteIndex) => true,
            (Binder::Invoke { info }, Binder::Invoke { info: other_info }) => info.same(other_info),
            (
                Binder::InvokeMember {
                    name,
                    ignore_case,
                    info,
                },
                Binder::InvokeMember {
                    name: other_name,
                    ignore_case: other_ignores,
                    info: other_info,
                },
            ) => name.same(other_name) && ignore_case == other_ignores && info.same(other_info),
            (Binder::CreateInstance { info }, Binder::CreateInstance { info: other_info }) => {
                info.same(other_info)
            }
            (Binder::Convert { to: mine }, Binder::Convert { to: theirs }) => mine == theirs,
            (Binder::UnaryOperation { op: mine }, Binder::UnaryOperation { op: theirs }) => {
                mine == theirs
            }
            (Binder::BinaryOperation { op: mine }, Binder::BinaryOperation { op: theirs }) => {
                mine == theirs
            }
            _ => false,
        }
    }

    /// An equal binder. The one error is want of memory.
    pub fn copy(&self) -> Result<Binder, AllocError>
        ensures { IfOk result (λ b. b ≡ self.now) }
    {
        Ok(match self {
            Binder::GetMember { name, ignore_case } => Binder::GetMember {
                name: name.copy()?,
                ignore_case: *ignore_case,
            },
            Binder::SetMember { name, ignore_case } => Binder::SetMember {
                name: name.copy()?,
                ignore_case: *ignore_case,
            },
            Binder::DeleteMember { name, ignore_case } => Binder::DeleteMember {
                name: name.copy()?,
                ignore_case: *ignore_case,
            },
            Binder::GetIndex => Binder::GetIndex,
            Binder::SetIndex => Binder::SetIndex,
            Binder::DeleteIndex => Binder::DeleteIndex,
            Binder::Invoke { info } => Binder::Invoke { info: info.copy()? },
            Binder::InvokeMember {
                name,
                ignore_case,
                info,
            } => Binder::InvokeMember {
                name: name.copy()?,
                ignore_case: *ignore_case,
                info: info.copy()?,
            },
            Binder::CreateInstance { info } => Binder::CreateInstance { info: info.copy()? },
            Binder::Convert { to } => Binder::Convert { to: *to },
            Binder::UnaryOperation { op } => Binder::UnaryOperation { op: *op },
            Binder::BinaryOperation { op } => Binder::BinaryOperation { op: *op },
        })
    }

    /// Appends the text of the binder, as UTF-8. Where memory is refused, `out` stays as it was.
    pub fn print_to(&self, out: &mut Vec<u8>) -> Result<(), AllocError>
        ensures appended { OnOk result (out.new.items ≡ out.old.items ++ encode_utf8_all (binder_text self.now)) }
        ensures refused { OnErr result (out.new.items ≡ out.old.items) }
    {
        let mut text = Vec::new(*out.allocator());
        self.append_to(&mut text)?;
        out.extend_from_slice(&text)
    }

    /// Appends the text of the binder, as UTF-8.
    fn append_to(&self, out: &mut Vec<u8>) -> Result<(), AllocError>
        ensures { OnOk result (out.new.items ≡ out.old.items ++ encode_utf8_all (binder_text self.now)) }
    {
        match self {
            Binder::GetMember { name, .. } => {
                out.extend_from_slice(b"GetMember ")?;
                name.quote_to(out)
            }
            Binder::SetMember { name, .. } => {
                out.extend_from_slice(b"SetMember ")?;
                name.quote_to(out)
            }
            Binder::DeleteMember { name, .. } => {
                out.extend_from_slice(b"DeleteMember ")?;
                name.quote_to(out)
            }
            Binder::GetIndex => out.extend_from_slice(b"GetIndex"),
            Binder::SetIndex => out.extend_from_slice(b"SetIndex"),
            Binder::DeleteIndex => out.extend_from_slice(b"DeleteIndex"),
            Binder::Invoke { info } => {
                out.extend_from_slice(b"Invoke ")?;
                info.append_to(out)
            }
            Binder::InvokeMember { name, info, .. } => {
                out.extend_from_slice(b"InvokeMember ")?;
                name.quote_to(out)?;
                out.push(b' ')?;
                info.append_to(out)
            }
            Binder::CreateInstance { info } => {
                out.extend_from_slice(b"CreateInstance ")?;
                info.append_to(out)
            }
            Binder::Convert { to } => {
                out.extend_from_slice(b"Convert ")?;
                out.extend_from_slice(to.name().as_bytes())
            }
            Binder::UnaryOperation { op } => out.extend_from_slice(op.name().as_bytes()),
            Binder::BinaryOperation { op } => out.extend_from_slice(op.name().as_bytes()),
        }
    }
}
