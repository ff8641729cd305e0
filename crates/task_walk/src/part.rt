use task_code::Node;

/// An operand that is to be evaluated.
#[derive(Clone, Copy, Debug)]
pub struct Part<'a> {
    pub node: &'a Node,
    /// Whether it opens a level.
    pub opens: bool,
}
