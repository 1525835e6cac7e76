//! Operators (IEEE 1364-2005, 5.1).
/// A unary operator.
#[derive(Clone, Copy)]
pub enum UnaryOperator {
    /// `+`
    Plus,
    /// `-`
    Minus,
    /// `!`
    LogicalNot,
    /// `~`
    BitwiseNot,
    /// `&`
    ReductionAnd,
    /// `~&`
    ReductionNand,
    /// `|`
    ReductionOr,
    /// `~|`
    ReductionNor,
    /// `^`
    ReductionXor,
    /// `~^`, `^~`
    ReductionXnor,
}

/// A binary operator.
#[derive(Clone, Copy)]
pub enum BinaryOperator {
    /// `**`
    Power,
    /// `*`
    Multiply,
    /// `/`
    Divide,
    /// `%`
    Modulus,
    /// `+`
    Add,
    /// `-`
    Subtract,
    /// `<<`
    LogicalShiftLeft,
    /// `>>`
    LogicalShiftRight,
    /// `<<<`
    ArithmeticShiftLeft,
    /// `>>>`
    ArithmeticShiftRight,
    /// `<`
    Less,
    /// `<=`
    LessEqual,
    /// `>`
    Greater,
    /// `>=`
    GreaterEqual,
    /// `==`
    LogicalEquality,
    /// `!=`
    LogicalInequality,
    /// `===`
    CaseEquality,
    /// `!==`
    CaseInequality,
    /// `&`
    BitwiseAnd,
    /// `^`
    BitwiseXor,
    /// `^~`, `~^`
    BitwiseXnor,
    /// `|`
    BitwiseOr,
    /// `&&`
    LogicalAnd,
    /// `||`
    LogicalOr,
}
