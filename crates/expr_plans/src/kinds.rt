//! The kinds of cells that operators make.
ghost use Rattle.std.specs.Prelude.{◌≡◌};
ghost use Rattle.expr_plans.specs.Kinds.{unary_kind, binary_kind};

use netlist_core::CellKind;
use vlog_syntax::{BinaryOperator, UnaryOperator};

/// The kind that `op a` makes. Unary `+` is wiring.
pub fn unary_kind(op: UnaryOperator) -> Option<CellKind>
    ensures { result ≡ unary_kind op }
{
    match op {
        UnaryOperator::Plus => None,
        UnaryOperator::Minus => Some(CellKind::Neg),
        UnaryOperator::LogicalNot => Some(CellKind::Lnot),
        UnaryOperator::BitwiseNot => Some(CellKind::Not),
        UnaryOperator::ReductionAnd => Some(CellKind::Rand),
        UnaryOperator::ReductionNand => Some(CellKind::Rnand),
        UnaryOperator::ReductionOr => Some(CellKind::Ror),
        UnaryOperator::ReductionNor => Some(CellKind::Rnor),
        UnaryOperator::ReductionXor => Some(CellKind::Rxor),
        UnaryOperator::ReductionXnor => Some(CellKind::Rxnor),
    }
}

/// The kind that `a op b` makes, where a is evaluated with this sign.
pub fn binary_kind(op: BinaryOperator, is_signed: bool) -> Option<CellKind>
    ensures { result ≡ binary_kind op is_signed }
{
    match op {
        BinaryOperator::Power | BinaryOperator::Divide | BinaryOperator::Modulus => None,
        BinaryOperator::Multiply => Some(CellKind::Mul),
        BinaryOperator::Add => Some(CellKind::Add),
        BinaryOperator::Subtract => Some(CellKind::Sub),
        BinaryOperator::LogicalShiftLeft | BinaryOperator::ArithmeticShiftLeft => {
            Some(CellKind::Shl)
        }
        BinaryOperator::LogicalShiftRight => Some(CellKind::Shr),
        BinaryOperator::ArithmeticShiftRight => Some(if is_signed {
            CellKind::Sshr
        } else {
            CellKind::Shr
        }),
        BinaryOperator::Less => Some(CellKind::Lt),
        BinaryOperator::LessEqual => Some(CellKind::Le),
        BinaryOperator::Greater => Some(CellKind::Gt),
        BinaryOperator::GreaterEqual => Some(CellKind::Ge),
        BinaryOperator::LogicalEquality | BinaryOperator::CaseEquality => Some(CellKind::Eq),
        BinaryOperator::LogicalInequality | BinaryOperator::CaseInequality => Some(CellKind::Ne),
        BinaryOperator::BitwiseAnd => Some(CellKind::And),
        BinaryOperator::BitwiseXor => Some(CellKind::Xor),
        BinaryOperator::BitwiseXnor => Some(CellKind::Xnor),
        BinaryOperator::BitwiseOr => Some(CellKind::Or),
        BinaryOperator::LogicalAnd => Some(CellKind::Land),
        BinaryOperator::LogicalOr => Some(CellKind::Lor),
    }
}
