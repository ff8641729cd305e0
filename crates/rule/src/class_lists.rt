//! Whether the names of a class, and of the class after it, are as claimed.
ghost use Rattle.std.specs.Prelude.{◌≡◌, ◌↔◌, ◌≤◌, IsTrue, Some, length, slice_get};
ghost use Rattle.std.specs.Option.{option_copied, option_map};
ghost use Rattle.std.specs.Str.{chars};
ghost use Rattle.expando_class.specs.Class.{IsClassOf, names_of};
ghost use Rattle.rule_model.specs.Claims.{IsPlaced, changed};
ghost use Rattle.rule.specs.Claimed.{IsAsClaimed};

use dyn_value::DynText;
use expando_class::{ClassRef, ClassTable};
use rule_model::ClassClaim;

/// The most members of an object.
const MOST_MEMBERS: u16 = 64;

/// Whether the class has the name where it is claimed to stand, and is full if and only if that is claimed.
pub(crate) fn is_as_claimed(claimed: &ClassClaim, table: &ClassTable, class: &ClassRef) -> bool
    requires { IsClassOf table.now class.now }
    ensures { IsTrue result ↔ IsAsClaimed claimed.now (names_of class.now) }
{
    is_placed(table, class, &claimed.name, claimed.place)
        && claimed.full == (table.size(class) == MOST_MEMBERS)
}

/// Whether the class has the name at this place, or nowhere.
fn is_placed(table: &ClassTable, class: &ClassRef, name: &DynText, place: Option<u16>) -> bool
    requires { IsClassOf table.now class.now }
    ensures { IsTrue result ↔ IsPlaced (names_of class.now) name.now place }
{
    match place {
        Some(place) => is_at(table, class, place, name.as_str()),
        None => table.place_of(class, name.as_str()).is_none(),
    }
}

/// Whether the class has the name at this place.
fn is_at(table: &ClassTable, class: &ClassRef, place: u16, name: &str) -> bool
    requires { IsClassOf table.now class.now }
    ensures { IsTrue result ↔ (slice_get (names_of class.now) place ≡ Some (chars name.now)) }
{
    place < table.size(class) && table.name_at(class, place) == name
}

/// Whether the class after has the names of the class without the place that is claimed of the name, or with the name
/// at the end.
pub(crate) fn is_after(
    claimed: &ClassClaim,
    table: &ClassTable,
    class: &ClassRef,
    after: &ClassRef,
) -> bool
    requires class { IsClassOf table.now class.now }
    requires after { IsClassOf table.now after.now }
    ensures { IsTrue result
        ↔ (names_of after.now ≡ changed (names_of class.now) claimed.now.name claimed.now.place) }
{
    let size = table.size(after);
    for place in 0..size {
        if !agrees_at(claimed, table, class, after, place) {
            return false;
        }
    }
    agrees_at(claimed, table, class, after, size)
}

/// Whether the class after has at this place the name that it is to have there, or none where it is to have none.
fn agrees_at(
    claimed: &ClassClaim,
    table: &ClassTable,
    class: &ClassRef,
    after: &ClassRef,
    place: u16,
) -> bool
    requires class { IsClassOf table.now class.now }
    requires after { IsClassOf table.now after.now }
    requires within { place ≤ length (names_of after.now) }
    ensures { IsTrue result ↔ (slice_get (names_of after.now) place
        ≡ slice_get (changed (names_of class.now) claimed.now.name claimed.now.place) place) }
{
    let size = table.size(after);
    match name_after(claimed, table, class, place) {
        Some(name) => is_at(table, after, place, name),
        None => place >= size,
    }
}

/// The name that the class after is to have at a place.
fn name_after<'a>(
    claimed: &'a ClassClaim,
    table: &'a ClassTable,
    class: &'a ClassRef,
    place: u16,
) -> Option<&'a str>
    requires of { IsClassOf table.now class.now }
    requires within { place ≤ 64 }
    ensures { option_map chars (option_copied result)
        ≡ slice_get (changed (names_of class.now) claimed.now.name claimed.now.place) place }
{
    match claimed.place {
        Some(removed) if place < removed => name_at(table, class, place),
        Some(_) => name_at(table, class, place + 1),
        None if place == table.size(class) => Some(claimed.name.as_str()),
        None => name_at(table, class, place),
    }
}

/// The name at a place of a class, where it has one there.
fn name_at<'a>(table: &'a ClassTable, class: &'a ClassRef, place: u16) -> Option<&'a str>
    requires { IsClassOf table.now class.now }
    ensures { option_map chars (option_copied result) ≡ slice_get (names_of class.now) place }
{
    if place < table.size(class) {
        Some(table.name_at(class, place))
    } else {
        None
    }
}
