//! Whether constants of selects and counts stand in one another.
use vlog_syntax::Expr;

/// Whether a part select, an indexed one or a replication stands in a bound, width or count of another, where the
/// expression stands in one itself or not.
#[cycle(nests)]
pub fn nests(expr: &Expr, within: bool) -> bool {
    match expr {
        Expr::Number(_) | Expr::Name(_) => false,
        Expr::BitSelect(_, _, inner) => nests(inner.get(), within),
        Expr::PartSelect(_, _, msb, lsb) => {
            within || nests(msb.get(), true) || nests(lsb.get(), true)
        }
        Expr::IndexedPartSelect(_, _, base, width) => {
            within || nests(base.get(), false) || nests(width.get(), true)
        }
        Expr::Parenthesized(_, inner) => nests(inner.get(), within),
        Expr::Unary(_, _, operand) => nests(operand.get(), within),
        Expr::Binary(_, _, left, right) => {
            nests(left.get(), within) || nests(right.get(), within)
        }
        Expr::Conditional(_, condition, yes, no) => {
            nests(condition.get(), within) || nests(yes.get(), within) || nests(no.get(), within)
        }
        Expr::Concatenation(_, parts) => any_nests(parts.as_slice(), within),
        Expr::MultipleConcatenation(_, count, parts) => {
            within || nests(count.get(), true) || any_nests(parts.as_slice(), false)
        }
        Expr::SystemFunctionCall(_, arguments) => any_nests(arguments.as_slice(), within),
    }
}

/// The same in one of several expressions.
#[cycle(nests)]
fn any_nests(exprs: &[Expr], within: bool) -> bool {
    for expr in exprs {
        if nests(expr, within) {
            return true;
        }
    }
    false
}
