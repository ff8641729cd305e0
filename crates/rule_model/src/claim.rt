use dyn_value::DynText;
use sqlite_items::Items;

/// What a rule rests on, beside its test.
#[derive(Debug, Drop)]
pub struct Claim {
    /// What is claimed of the target's class, where the rule looks at one.
    pub class: Option<ClassClaim>,
    /// What is claimed of the function that the target is, where the rule looks at one.
    pub fun: Option<FunClaim>,
}

/// What is claimed of a class.
#[derive(Debug, Drop)]
pub struct ClassClaim {
    /// Its number.
    pub class: u128,
    /// A name.
    pub name: DynText,
    /// The place of the name in the class; `None` where it has no such name.
    pub place: Option<u16>,
    /// Whether the class has as many names as an object may have members.
    pub full: bool,
    /// The number of the class to which the rule moves its object: that of the same names with `name` at the end,
    /// where `place` is `None`, and without that place otherwise.
    pub after: Option<u128>,
}

/// What is claimed of a function.
#[derive(Debug, Drop)]
pub struct FunClaim {
    /// Its number.
    pub number: u32,
    /// The names of its parameters.
    pub params: Items<DynText>,
}
