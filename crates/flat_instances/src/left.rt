//! Expressions that have the form of a left side (IEEE 1364-2005, A.8.5).
ghost use Rattle.std.specs.Prelude.{◌≡◌, map};
ghost use Rattle.flat_instances.specs.Wires.{all_of, is_left as has_form};

use vlog_syntax::Expr;

/// Whether an expression has the form of a left side.
#[cycle(form)]
pub fn is_left(expr: &Expr) -> bool
    ensures { result ≡ has_form expr.now }
{
    match expr {
        Expr::Name(_) => true,
        Expr::BitSelect(..) => true,
        Expr::PartSelect(..) => true,
        Expr::IndexedPartSelect(..) => true,
        Expr::Concatenation(_, parts) => all_left(parts.as_slice()),
        _ => false,
    }
}

/// Whether each of these has the form of a left side.
#[cycle(form)]
fn all_left(parts: &[Expr]) -> bool
    ensures { result ≡ all_of (map has_form parts.now) }
{
    for part in parts {
        if !is_left(part) {
            return false;
        }
    }
    true
}
