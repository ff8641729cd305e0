//! What all objects of one run share.
use expando_class::ClassTable;
use standard_binders::Binder;
use std::collections::LinkedList;

/// What does not change of an object, and is the same for all objects of a run.
#[derive(Clone, Copy)]
pub struct RowTag<'p> {
    /// The program's binders.
    pub binders: &'p [Binder],
    /// How many functions the program has.
    pub functions: usize,
    /// How many objects there may be.
    pub limit: u32,
}

/// A row's tag and the table of its classes, as contracts see them. No value of it is made.
pub struct Tag {
    pub binders: LinkedList<Binder>,
    pub functions: usize,
    pub limit: u32,
    pub table: ClassTable,
}
