//! What a call is handed.
ghost use Rattle.std.specs.Prelude.{◌≡◌, ◌↔◌, IsOk, IsTrue, IfOk, IfErr, OnOk, ◌++◌, encode_utf8_all};
ghost use Rattle.std.specs.List.{flat_map, list_all, zip};
ghost use Rattle.std.specs.Str.{bytes_eq};
ghost use Rattle.standard_binders.specs.Arguments.{Arguments, AreArguments, arguments_text, name_text};

use dyn_value::{DynText, are_distinct};
use std::alloc::AllocError;
use std::marker::Model;

/// How many arguments a call has, and the names of its named ones, which come last.
///
/// Contracts see it as the count and the list of names.
#[derive(Debug, Drop)]
pub struct CallInfo {
    count: u32,
    names: Vec<DynText>,
}

impl Model for CallInfo {
    ghost use Rattle.standard_binders.specs.Arguments.{Arguments, AreArguments};

    ghost Value = { Arguments };

    ghost view = { λ info. record { count = info.count; names = info.names.items } };

    ghost invariant = { λ info. AreArguments (record { count = info.count; names = info.names.items }) };
}

impl CallInfo {
    /// The most arguments of a call.
    pub const MOST_ARGUMENTS: u32 = 16;

    /// What a call is handed that has so many arguments, the last of which have these names. The names come back
    /// exactly where the count is above [`CallInfo::MOST_ARGUMENTS`], there are more names than arguments, or a name
    /// stands among them twice. It takes no memory.
    pub fn make(count: u32, names: Vec<DynText>) -> Result<CallInfo, Vec<DynText>>
        ensures made { IsOk result ↔ AreArguments (record { count = count; names = names.items }) }
        ensures info { IfOk result (λ info. info ≡ record { count = count; names = names.items }) }
        ensures refused { IfErr result (λ back. back.items ≡ names.items) }
    {
        if count > CallInfo::MOST_ARGUMENTS
            || names.len() > count as usize
            || !are_distinct(names.as_slice())
        {
            return Err(names);
        }
        Ok(CallInfo { count, names })
    }

    /// How many arguments there are, at most [`CallInfo::MOST_ARGUMENTS`].
    pub fn count(&self) -> u32
        ensures count { result ≡ self.now.count }
        ensures arguments { AreArguments self.now }
    {
        self.count
    }

    /// The names of the last arguments, in their order.
    pub fn names(&self) -> &[DynText]
        ensures names { result.now ≡ self.now.names }
        ensures arguments { AreArguments self.now }
    {
        self.names.as_slice()
    }

    /// Whether the two have as many arguments, with the same names.
    pub fn same(&self, other: &CallInfo) -> bool
        ensures { IsTrue result ↔ (self.now ≡ other.now) }
    {
        self.count == other.count && are_same(&self.names, &other.names)
    }

    /// The same count and equal names. The one error is want of memory.
    pub fn copy(&self) -> Result<CallInfo, AllocError>
        ensures { IfOk result (λ info. info ≡ self.now) }
    {
        let names = copied(&self.names)?;
        Ok(CallInfo {
            count: self.count,
            names,
        })
    }

    /// Appends the count, and each name after a space, as UTF-8.
    pub(crate) fn append_to(&self, out: &mut Vec<u8>) -> Result<(), AllocError>
        ensures { OnOk result (out.new.items ≡ out.old.items ++ encode_utf8_all (arguments_text self.now)) }
    {
        let count = self.count;
        let digits = format!(in *out.allocator(); "{count}")?;
        out.extend_from_slice(digits.as_bytes())?;
        append_names(&self.names, out)
    }
}

/// Whether the texts are as many, and the same one by one.
fn are_same(left: &[DynText], right: &[DynText]) -> bool
    ensures { IsTrue result ↔ (left.now ≡ right.now) }
{
    left.len() == right.len() && all_same(left, right)
}

/// Whether the texts are the same one by one, as far as both lists go.
fn all_same(left: &[DynText], right: &[DynText]) -> bool
    ensures { result ≡ list_all (λ pair. bytes_eq pair.0 pair.1) (zip left.now right.now) }
{
    left.iter()
        .zip(right)
        .all(|(mine, theirs)| mine.same(theirs))
}

/// Equal texts in the same order.
fn copied(names: &Vec<DynText>) -> Result<Vec<DynText>, AllocError>
    ensures { IfOk result (λ copies. copies.items ≡ names.now.items) }
{
    let mut copies = Vec::with_capacity(*names.allocator(), names.len())?;
    for name in names {
        copies.push(name.copy()?)?;
    }
    Ok(copies)
}

/// Appends each name after a space, as UTF-8.
fn append_names(names: &[DynText], out: &mut Vec<u8>) -> Result<(), AllocError>
    ensures { OnOk result (out.new.items ≡ out.old.items ++ encode_utf8_all (flat_map name_text names.now)) }
{
    for name in names {
        out.push(b' ')?;
        out.extend_from_slice(name.as_str().as_bytes())?;
    }
    Ok(())
}
