//! Operators.

/// An operator of the story's arithmetic.
#[derive(Clone, Copy, Debug, PartialEq, Eq)]
pub enum Op {
    Add,
    Subtract,
    Divide,
    Multiply,
    Remainder,
    Negate,
    Equal,
    Greater,
    Less,
    AtLeast,
    AtMost,
    NotEqual,
    Not,
    And,
    Or,
    Min,
    Max,
    Floor,
    Ceiling,
    Int,
    Has,
    HasNot,
}
