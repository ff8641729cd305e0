ghost use Rattle.std.specs.Prelude.{◌≡◌, ℕ, List, Some, IsSome, MatchOption};
ghost use Rattle.object_model.specs.Accesses.{Access as Meant, NoKey, access_of, keyed};
ghost use Rattle.object_model.specs.Shown.{shown};

use dyn_value::{DynText, Value};
use standard_binders::Binder;

/// What an operation does to the members of an object.
#[derive(Clone, Copy)]
pub(crate) enum Access<'a> {
    /// It reads the member of this name.
    Read(&'a DynText),
    /// It gives the member of this name the value.
    Write(&'a DynText, &'a Value),
    /// It removes the member of this name.
    Delete(&'a DynText),
    /// Its key is the name of no member.
    NoKey,
}

impl<'a> Access<'a> {
    /// The access of an operation on members, with the operands after the target.
    pub(crate) fn of(binder: &'a Binder, operands: &'a [Value]) -> Access<'a>
        requires { IsSome (access_of binder.now operands.now) }
        ensures { access_of binder.now operands.now ≡ Some (shown result) }
    {
        match (binder, operands) {
            (Binder::GetMember { name, .. }, []) => Access::Read(name),
            (Binder::SetMember { name, .. }, [value]) => Access::Write(name, value),
            (Binder::DeleteMember { name, .. }, []) => Access::Delete(name),
            (Binder::GetIndex, [key]) => match name_of(key) {
                Some(name) => Access::Read(name),
                None => Access::NoKey,
            },
            (Binder::SetIndex, [key, value]) => match name_of(key) {
                Some(name) => Access::Write(name, value),
                None => Access::NoKey,
            },
            (Binder::DeleteIndex, [key]) => match name_of(key) {
                Some(name) => Access::Delete(name),
                None => Access::NoKey,
            },
            (Binder::InvokeMember { name, .. }, _) => Access::Read(name),
            _ => unreachable!(),
        }
    }
}

/// The most bytes of a key that is the name of a member.
const MOST_BYTES: usize = 64;

/// The key, where it may be the name of a member.
fn name_of(key: &Value) -> Option<&DynText>
    ensures { MatchOption result
        ((access : List ℕ → Meant) → keyed key.now access ≡ NoKey)
        (λ name. (access : List ℕ → Meant) → keyed key.now access ≡ access name.now) }
{
    match key {
        Value::Text(text) if text.as_str().len() <= MOST_BYTES => Some(text),
        _ => None,
    }
}
