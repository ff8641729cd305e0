use dyn_value::Value;
use sqlite_items::Items;

/// What the code of a task or function goes on with.
#[derive(Debug, Drop)]
pub struct Frame {
    /// The turns that are left.
    pub turns: u32,
    /// The values of the locals, by their numbers.
    pub locals: Items<Value>,
}

/// How statements end.
#[derive(Debug, Drop)]
pub enum Flow {
    /// The next statement comes.
    Next,
    /// The function or task ends with this value.
    Returned(Value),
}
