//! Which bits of a label of a case are no matter.
ghost use Rattle.std.specs.Prelude.{◌≡◌};
ghost use Rattle.vlog_effects.specs.Steps.{dont_care, ignored};

use vlog_syntax::{CaseKind, Expr, Number};

/// The bits of a number that are no matter as a label.
fn ignored(kind: CaseKind, number: &Number) -> u128
    ensures { result ≡ ignored kind number.now }
{
    match kind {
        CaseKind::Case => 0,
        CaseKind::Casez => number.z_bits,
        CaseKind::Casex => number.z_bits | number.x_bits,
    }
}

/// The bits of a label that are no matter.
pub fn dont_care(kind: CaseKind, label: &Expr) -> u128
    ensures { result ≡ dont_care kind label.now }
{
    match label {
        Expr::Number(number) => ignored(kind, number),
        Expr::Parenthesized(_, inner) => dont_care(kind, inner.get()),
        _ => 0,
    }
}
