//! How many bits a selector can have, brought to the size of its case (IEEE 1364-2005, 5.4.1 and 9.5).
ghost use Rattle.std.specs.Prelude.{◌≡◌, ◌&&◌, not, if◌then◌else◌};
ghost use Rattle.vlog_meaning.specs.Operators.{sizing};
ghost use Rattle.vlog_effects.specs.Selectors.{is_test, is_bitwise, keeps_width};

use vlog_meaning::{Shape, Sizing, is_reduction, sizing_of};
use vlog_syntax::{BinaryOperator, Expr};

/// Whether an operator is a comparison, `&&` or `||`.
fn is_test(op: BinaryOperator) -> bool
    ensures { result ≡ is_test (sizing op) }
{
    match sizing_of(op) {
        Sizing::Compared | Sizing::Apart => true,
        Sizing::Common | Sizing::Left => false,
    }
}

/// Whether an operator is `&`, `^` or `|`.
fn is_bitwise(op: BinaryOperator) -> bool
    ensures { result ≡ is_bitwise op }
{
    matches!(
        op,
        BinaryOperator::BitwiseAnd | BinaryOperator::BitwiseXor | BinaryOperator::BitwiseOr
    )
}

/// Whether by its form the bits of an unsigned expression above its own width are 0, at whatever size it is evaluated.
fn keeps_width(expr: &Expr) -> bool
    ensures { result ≡ keeps_width expr.now }
{
    match expr {
        Expr::Parenthesized(_, inner) => keeps_width(inner.get()),
        Expr::Unary(_, op, _) => is_reduction(*op),
        Expr::Binary(_, op, left, right) => {
            let first = keeps_width(left.get());
            let second = keeps_width(right.get());
            is_test(*op) || is_bitwise(*op) && (first && second)
        }
        Expr::Conditional(_, _, yes, no) => {
            let first = keeps_width(yes.get());
            let second = keeps_width(no.get());
            first && second
        }
        Expr::SystemFunctionCall(..) => false,
        Expr::Number(_)
        | Expr::Name(_)
        | Expr::BitSelect(..)
        | Expr::PartSelect(..)
        | Expr::IndexedPartSelect(..)
        | Expr::Concatenation(..)
        | Expr::MultipleConcatenation(..) => true,
    }
}

/// The bits that a selector of this shape can have at the size of its case: its own where it is unsigned and keeps them, else all.
pub fn selector_bits(selector: &Expr, own: Shape, size: Shape) -> u8
    ensures { result ≡ (if keeps_width selector.now && not own.is_signed then own.width else size.width) }
{
    if keeps_width(selector) && !own.is_signed {
        own.width
    } else {
        size.width
    }
}
