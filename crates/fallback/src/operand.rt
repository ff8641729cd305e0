//! What is known of operands.
ghost use Rattle.std.specs.Prelude.{◌≡◌, ◌<◌, Some, length, map, slice_get};
ghost use Rattle.std.specs.Option.{option_copied};
ghost use Rattle.object_model.specs.Accesses as accesses;
ghost use Rattle.meta_object.specs.Metas.{kind_in, known_in, class_in_shape};
ghost use Rattle.fallback.specs.Own.{known_at};
ghost use Rattle.fallback.specs.Answers as spec;
ghost use Rattle.standard_binders.specs.Binders.{operand_count_of};
ghost use Rattle.meta_object.specs.Reaching as reaching;
ghost use Rattle.meta_object.specs.Reaching.{text_in};

use dyn_value::{DynText, Kind, Value};
use expando_class::ClassRef;
use meta_object::{MetaObject, Shape};
use standard_binders::Binder;

/// The most bytes of a text that may be the name of a member.
const MOST_NAME_BYTES: usize = 64;

/// The metaobject of the operand at this place.
pub(crate) fn operand(metas: &[MetaObject], place: usize) -> &MetaObject
    requires { place < length metas.now }
    ensures there { slice_get metas.now place ≡ Some result.now }
    ensures known { known_at (map known_in metas.now) place ≡ known_in result.now }
{
    &metas[place]
}

/// The kind of a metaobject's operand.
pub(crate) fn kind(meta: &MetaObject) -> Kind
    ensures { result ≡ kind_in meta.now.shape }
{
    match meta.shape {
        Shape::Plain(kind) => kind,
        Shape::Expando(_) => Kind::Obj,
    }
}

/// The class of the object that an operation on members has as its target; none where it looks at no object.
pub(crate) fn object_class<'a>(binder: &Binder, metas: &'a [MetaObject]) -> Option<&'a ClassRef>
    ensures { option_copied result ≡ spec.object_class binder.now metas.now }
{
    if binder.is_on_members() {
        metas.first()?.shape.class()
    } else {
        None
    }
}

/// The name of the member that an operation reaches: that which the binder carries, or the key of an index where it is a
/// text.
pub(crate) fn reached_name<'a>(binder: &'a Binder, metas: &'a [MetaObject]) -> Option<&'a DynText>
    requires { length metas.now ≡ operand_count_of binder.now }
    ensures { option_copied result ≡ reaching.reached_name binder.now metas.now }
{
    match binder {
        Binder::GetMember { name, .. }
        | Binder::SetMember { name, .. }
        | Binder::DeleteMember { name, .. }
        | Binder::InvokeMember { name, .. } => Some(name),
        Binder::GetIndex | Binder::SetIndex | Binder::DeleteIndex => text_in(operand(metas, 1)),
        _ => None,
    }
}

/// The text that an operand is; none of another value.
fn text_in(meta: &MetaObject) -> Option<&DynText>
    ensures { option_copied result ≡ reaching.text_in meta.now.value }
{
    match &meta.value {
        Some(Value::Text(text)) => Some(text),
        _ => None,
    }
}

/// Whether a text may be the name of a member.
pub(crate) fn is_key(text: &DynText) -> bool
    ensures { result ≡ accesses.is_key text.now }
{
    text.as_str().len() <= MOST_NAME_BYTES
}
