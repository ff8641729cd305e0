ghost use Rattle.std.specs.Prelude.{◌≡◌, IsTrue};
ghost use Rattle.std.specs.Char.{is_ascii};
ghost use Rattle.std.specs.List.{list_all};
ghost use Rattle.dyn_value.specs.Texts.{unary_name, binary_name};

/// The operators with one operand.
#[derive(Clone, Copy, Debug, PartialEq, Eq)]
pub enum UnOp {
    Negate,
    Not,
    IsTrue,
}

impl UnOp {
    /// The name of the operator.
    pub fn name(self) -> &'static str
        ensures name { result.now ≡ unary_name self }
        ensures ascii { IsTrue (list_all is_ascii result.now) }
    {
        match self {
            UnOp::Negate => "Negate",
            UnOp::Not => "Not",
            UnOp::IsTrue => "IsTrue",
        }
    }
}

/// The operators with two operands.
#[derive(Clone, Copy, Debug, PartialEq, Eq)]
pub enum BinOp {
    Add,
    Subtract,
    Multiply,
    Divide,
    Modulo,
    Equal,
    NotEqual,
    LessThan,
    LessThanOrEqual,
    GreaterThan,
    GreaterThanOrEqual,
    And,
    Or,
}

impl BinOp {
    /// The name of the operator.
    pub fn name(self) -> &'static str
        ensures name { result.now ≡ binary_name self }
        ensures ascii { IsTrue (list_all is_ascii result.now) }
    {
        match self {
            BinOp::Add => "Add",
            BinOp::Subtract => "Subtract",
            BinOp::Multiply => "Multiply",
            BinOp::Divide => "Divide",
            BinOp::Modulo => "Modulo",
            BinOp::Equal => "Equal",
            BinOp::NotEqual => "NotEqual",
            BinOp::LessThan => "LessThan",
            BinOp::LessThanOrEqual => "LessThanOrEqual",
            BinOp::GreaterThan => "GreaterThan",
            BinOp::GreaterThanOrEqual => "GreaterThanOrEqual",
            BinOp::And => "And",
            BinOp::Or => "Or",
        }
    }
}
