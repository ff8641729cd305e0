use expando_class::{ClassPass, ClassTable};

/// The classes, and those that the pass knows for which is bound.
#[derive(Drop)]
pub struct BindContext<'a> {
    pub table: &'a ClassTable,
    pub pass: &'a mut ClassPass,
}
