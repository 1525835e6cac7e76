//! The size to which expressions are brought that stand together in a case.
ghost use Rattle.std.specs.Prelude.{◌≡◌, ◌∷◌};
ghost use Rattle.std.specs.List.{flat_map};
ghost use Rattle.vlog_meaning.specs.Operators.{IsSized, joint};
ghost use Rattle.vlog_meaning.specs.Scopes.{names_of};
ghost use Rattle.vlog_meaning.specs.Senses.{AreWhole};
ghost use Rattle.vlog_refusals.specs.Cases.{common_size, labels_in, widened};

use vlog_meaning::{Scope, Shape, shape_of};
use vlog_syntax::{CaseItem, Expr};

/// The greater width, signed where both are.
fn joint(i: Shape, j: Shape) -> Shape
    requires i { IsSized i }
    requires j { IsSized j }
    ensures shape { result ≡ joint i j }
    ensures sized { IsSized result }
{
    Shape {
        width: i.width.max(j.width),
        is_signed: i.is_signed && j.is_signed,
    }
}

/// The size to which expressions are brought that are together with one of this size.
pub fn size_with(size: Shape, exprs: &[Expr], scope: &Scope) -> Shape
    requires sized { IsSized size }
    requires whole { AreWhole (names_of scope.now) exprs.now }
    ensures size { result ≡ widened (names_of scope.now) size exprs.now }
    ensures sized { IsSized result }
{
    let mut common = size;
    for expr in exprs {
        common = joint(common, shape_of(expr, scope));
    }
    common
}

/// The same with the labels of items.
fn size_with_labels(size: Shape, items: &[CaseItem], scope: &Scope) -> Shape
    requires sized { IsSized size }
    requires whole { AreWhole (names_of scope.now) (flat_map labels_in items.now) }
    ensures size { result ≡ widened (names_of scope.now) size (flat_map labels_in items.now) }
    ensures sized { IsSized result }
{
    let mut common = size;
    for item in items {
        common = size_with(common, item.labels.as_slice(), scope);
    }
    common
}

/// The size of a case.
pub fn case_size(selector: &Expr, items: &[CaseItem], scope: &Scope) -> Shape
    requires { AreWhole (names_of scope.now) (selector.now ∷ flat_map labels_in items.now) }
    ensures size { result ≡ common_size (names_of scope.now) (selector.now ∷ flat_map labels_in items.now) }
    ensures sized { IsSized result }
{
    size_with_labels(shape_of(selector, scope), items, scope)
}
