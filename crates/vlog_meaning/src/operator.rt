//! Operators: their sizes, and their values on numbers (IEEE 1364-2005, 5.1 and Table 5-22).
ghost use Rattle.std.specs.Prelude.{◌≡◌, ◌<◌, ◌≤◌, ◌^◌};
ghost use Rattle.vlog_meaning.specs.Integers.{integer};
ghost use Rattle.vlog_meaning.specs.Operators.{IsSized, ArePaired, joint, sizing, pair_shape, left_context, right_context, result_width, is_reduction, unary_shape, operand_context, digit, unary_value, binary_value, divides_by_zero};

use crate::arithmetic::{divide, power, remainder};
use crate::integer::{
    is_negative, less, negate, odd_ones, ones, shift_left, shift_right, shift_right_signed,
    subtract, truncate,
};
use crate::shapes::Shape;
use vlog_syntax::{BinaryOperator, UnaryOperator};

/// How a binary operator sizes its operands, which are i and j.
#[derive(Clone, Copy, Debug, PartialEq, Eq)]
pub enum Sizing {
    /// Both have the width of the result, max(L(i), L(j)).
    Common,
    /// i has the width of the result, L(i), and j its own.
    Left,
    /// Both have the width max(L(i), L(j)), and the result has 1 bit.
    Compared,
    /// Each has its own width, and the result has 1 bit.
    Apart,
}

/// One unsigned bit.
pub const BIT: Shape = Shape {
    width: 1,
    is_signed: false,
};

/// The greater width, signed where both are.
pub fn joint(i: Shape, j: Shape) -> Shape
    ensures { result ≡ joint i j }
{
    Shape {
        width: i.width.max(j.width),
        is_signed: i.is_signed && j.is_signed,
    }
}

/// The operator's rule.
pub fn sizing_of(op: BinaryOperator) -> Sizing
    ensures { result ≡ sizing op }
{
    match op {
        BinaryOperator::Multiply
        | BinaryOperator::Divide
        | BinaryOperator::Modulus
        | BinaryOperator::Add
        | BinaryOperator::Subtract
        | BinaryOperator::BitwiseAnd
        | BinaryOperator::BitwiseXor
        | BinaryOperator::BitwiseXnor
        | BinaryOperator::BitwiseOr => Sizing::Common,
        BinaryOperator::Power
        | BinaryOperator::LogicalShiftLeft
        | BinaryOperator::LogicalShiftRight
        | BinaryOperator::ArithmeticShiftLeft
        | BinaryOperator::ArithmeticShiftRight => Sizing::Left,
        BinaryOperator::Less
        | BinaryOperator::LessEqual
        | BinaryOperator::Greater
        | BinaryOperator::GreaterEqual
        | BinaryOperator::LogicalEquality
        | BinaryOperator::LogicalInequality
        | BinaryOperator::CaseEquality
        | BinaryOperator::CaseInequality => Sizing::Compared,
        BinaryOperator::LogicalAnd | BinaryOperator::LogicalOr => Sizing::Apart,
    }
}

impl Sizing {
    /// The shape of `i op j`, from those of i and j.
    pub fn pair_shape(self, i: Shape, j: Shape) -> Shape
        ensures { result ≡ pair_shape self i j }
    {
        match self {
            Sizing::Common => joint(i, j),
            Sizing::Left => i,
            Sizing::Compared | Sizing::Apart => BIT,
        }
    }

    /// The shape at which i is evaluated, where `i op j` is evaluated at `context`.
    pub fn left_context(self, i: Shape, j: Shape, context: Shape) -> Shape
        ensures { result ≡ left_context self i j context }
    {
        match self {
            Sizing::Common | Sizing::Left => context,
            Sizing::Compared => joint(i, j),
            Sizing::Apart => i,
        }
    }

    /// The shape at which j is evaluated.
    pub fn right_context(self, i: Shape, j: Shape, context: Shape) -> Shape
        ensures { result ≡ right_context self i j context }
    {
        match self {
            Sizing::Common | Sizing::Compared => self.left_context(i, j, context),
            Sizing::Left | Sizing::Apart => j,
        }
    }
}

/// Whether the operator makes one bit of its operand.
pub fn is_reduction(op: UnaryOperator) -> bool
    ensures { result ≡ is_reduction op }
{
    match op {
        UnaryOperator::Plus | UnaryOperator::Minus | UnaryOperator::BitwiseNot => false,
        UnaryOperator::LogicalNot
        | UnaryOperator::ReductionAnd
        | UnaryOperator::ReductionNand
        | UnaryOperator::ReductionOr
        | UnaryOperator::ReductionNor
        | UnaryOperator::ReductionXor
        | UnaryOperator::ReductionXnor => true,
    }
}

/// The shape of `op i`.
pub fn unary_shape(op: UnaryOperator, i: Shape) -> Shape
    ensures { result ≡ unary_shape op i }
{
    if is_reduction(op) { BIT } else { i }
}

/// The shape at which i is evaluated, where `op i` is evaluated at `context`.
pub fn operand_context(op: UnaryOperator, i: Shape, context: Shape) -> Shape
    ensures { result ≡ operand_context op i context }
{
    if is_reduction(op) { i } else { context }
}

/// 1 for true.
pub fn digit(bit: bool) -> u128
    ensures { result ≡ digit bit }
{
    if bit { 1 } else { 0 }
}

/// The value of `op a`.
pub fn unary_value(op: UnaryOperator, shape: Shape, a: u128) -> u128
    requires sized { IsSized shape }
    requires fits { a < 2 ^ shape.width }
    ensures { result ≡ unary_value op shape a }
{
    match op {
        UnaryOperator::Plus => a,
        UnaryOperator::Minus => negate(a, shape.width),
        UnaryOperator::BitwiseNot => ones(shape.width) - a,
        UnaryOperator::LogicalNot | UnaryOperator::ReductionNor => digit(a == 0),
        UnaryOperator::ReductionAnd => digit(a == ones(shape.width)),
        UnaryOperator::ReductionNand => digit(a != ones(shape.width)),
        UnaryOperator::ReductionOr => digit(a != 0),
        UnaryOperator::ReductionXor => odd_ones(a, shape.width),
        UnaryOperator::ReductionXnor => 1u128.saturating_sub(odd_ones(a, shape.width)),
    }
}

/// The value of `a op b`, where a is evaluated at one shape and b at another.
pub fn binary_value(op: BinaryOperator, left: Shape, a: u128, right: Shape, b: u128) -> u128
    requires left { IsSized left }
    requires right { IsSized right }
    requires paired { ArePaired (sizing op) left right }
    requires fits_a { a < 2 ^ left.width }
    requires fits_b { b < 2 ^ right.width }
    ensures { result ≡ binary_value op left a right b }
{
    match op {
        BinaryOperator::Power => power(left, a, right, b),
        BinaryOperator::Multiply => truncate(a.wrapping_mul(b), left.width),
        BinaryOperator::Divide => divide(left, a, b),
        BinaryOperator::Modulus => remainder(left, a, b),
        BinaryOperator::Add => truncate(a.wrapping_add(b), left.width),
        BinaryOperator::Subtract => subtract(a, b, left.width),
        BinaryOperator::LogicalShiftLeft | BinaryOperator::ArithmeticShiftLeft => {
            shift_left(a, b, left.width)
        }
        BinaryOperator::LogicalShiftRight => shift_right(a, b),
        BinaryOperator::ArithmeticShiftRight => shift_right_signed(left, a, b),
        BinaryOperator::Less => digit(less(left, a, b)),
        BinaryOperator::LessEqual => digit(!less(left, b, a)),
        BinaryOperator::Greater => digit(less(left, b, a)),
        BinaryOperator::GreaterEqual => digit(!less(left, a, b)),
        BinaryOperator::LogicalEquality | BinaryOperator::CaseEquality => digit(a == b),
        BinaryOperator::LogicalInequality | BinaryOperator::CaseInequality => digit(a != b),
        BinaryOperator::BitwiseAnd => a & b,
        BinaryOperator::BitwiseXor => a ^ b,
        BinaryOperator::BitwiseXnor => ones(left.width).saturating_sub(a ^ b),
        BinaryOperator::BitwiseOr => a | b,
        BinaryOperator::LogicalAnd => digit(a != 0 && b != 0),
        BinaryOperator::LogicalOr => digit(a != 0 || b != 0),
    }
}

/// Whether `a op b` divides by 0.
pub fn divides_by_zero(op: BinaryOperator, a: u128, right: Shape, b: u128) -> bool
    requires { IsSized right }
    ensures { result ≡ divides_by_zero op a right b }
{
    match op {
        BinaryOperator::Divide | BinaryOperator::Modulus => b == 0,
        BinaryOperator::Power => a == 0 && is_negative(right, b),
        _ => false,
    }
}
