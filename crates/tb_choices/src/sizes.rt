//! The size to which a selector and all labels are brought.
ghost use Rattle.std.specs.Prelude.{◌≡◌, ◌∷◌, map};
ghost use Rattle.std.specs.List.{flat_map};
ghost use Rattle.vlog_meaning.specs.Operators.{IsSized};
ghost use Rattle.vlog_meaning.specs.Scopes.{names_of};
ghost use Rattle.vlog_meaning.specs.Senses.{IsWhole};
ghost use Rattle.vlog_refusals.specs.Cases.{common_size, widened};
ghost use Rattle.tb_machine.specs.Nodes.{choice_labels};
ghost use Rattle.tb_choices.specs.Choices.{LabelsWhole};

use tb_machine::Choice;
use vlog_meaning::{Scope, Shape, shape_of};
use vlog_refusals::size_with;
use vlog_syntax::Expr;

/// The size to which the labels of items are brought that are together with an expression of this size.
fn size_with_labels(size: Shape, items: &[Choice], scope: &Scope) -> Shape
    requires sized { IsSized size }
    requires whole { LabelsWhole (names_of scope.now) (map choice_labels items.now) }
    ensures size { result ≡ widened (names_of scope.now) size (flat_map choice_labels items.now) }
    ensures sized { IsSized result }
{
    let mut common = size;
    for item in items {
        common = size_with(common, item.labels.as_slice(), scope);
    }
    common
}

/// The size of a case.
pub fn case_size(selector: &Expr, items: &[Choice], scope: &Scope) -> Shape
    requires selector { IsWhole (names_of scope.now) selector.now }
    requires labels { LabelsWhole (names_of scope.now) (map choice_labels items.now) }
    ensures size { result ≡ common_size (names_of scope.now) (selector.now ∷ flat_map choice_labels items.now) }
    ensures sized { IsSized result }
{
    size_with_labels(shape_of(selector, scope), items, scope)
}
