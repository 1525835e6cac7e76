//! What an expression uses.
ghost use Rattle.std.specs.Prelude.{◌≡◌, map};
ghost use Rattle.tag_lines.specs.Uses.{all_uses, both_uses, is_place, uses_of};

use crate::expr::Expr;

/// Whether the tests of an expression are all those of the project, and its names are all assigned.
#[derive(Clone, Copy, Debug, PartialEq, Eq)]
pub struct Uses {
    pub tests: bool,
    pub names: bool,
}

/// What two parts use together.
fn both_uses(a: Uses, b: Uses) -> Uses
    ensures { result ≡ both_uses a b }
{
    Uses {
        tests: a.tests && b.tests,
        names: a.names && b.names,
    }
}

/// Whether a place is among these.
pub fn is_place(places: &[usize], place: usize) -> bool
    ensures { result ≡ is_place places.now place }
{
    places.iter().any(|other| *other == place)
}

/// What an expression uses, where there are so many tests, and the names with these places are assigned.
#[cycle(uses)]
pub fn uses_of(tests: usize, places: &[usize], expr: &Expr) -> Uses
    ensures { result ≡ uses_of tests places.now expr.now }
{
    match expr {
        Expr::Number(_) | Expr::Text(_) => Uses {
            tests: true,
            names: true,
        },
        Expr::Name(name) => Uses {
            tests: true,
            names: is_place(places, *name),
        },
        Expr::Word(test) => Uses {
            tests: *test < tests,
            names: true,
        },
        Expr::Not(operand) => uses_of(tests, places, operand.get()),
        Expr::Compare(left, _, right) => both_uses(
            uses_of(tests, places, left.get()),
            uses_of(tests, places, right.get()),
        ),
        Expr::And(operands) | Expr::Or(operands) => all_uses(tests, places, operands.as_slice()),
    }
}

/// What several expressions use.
#[cycle(uses)]
fn all_uses(tests: usize, places: &[usize], exprs: &[Expr]) -> Uses
    ensures { result ≡ all_uses (map (uses_of tests places.now) exprs.now) }
{
    let mut all = Uses {
        tests: true,
        names: true,
    };
    for expr in exprs {
        let one = uses_of(tests, places, expr);
        all = both_uses(all, one);
    }
    all
}
