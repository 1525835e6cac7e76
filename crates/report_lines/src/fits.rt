//! Whether a line names only tags of the project.
ghost use Rattle.std.specs.Prelude.{◌≡◌, map};
ghost use Rattle.std.specs.List.{list_all};
ghost use Rattle.report_lines.specs.Fits.{all_true, expr_fits, head_fits, term_fits};

use crate::expr::{Expr, Term};
use crate::head::Head;

/// Whether an expression has only counts of tags, of which there are so many.
#[cycle(fits)]
fn expr_fits(tags: usize, expr: &Expr) -> bool
    ensures { result ≡ expr_fits tags expr.now }
{
    match expr {
        Expr::Number(_) => true,
        Expr::Count(tag) => *tag < tags,
        Expr::Not(operand) => expr_fits(tags, operand.get()),
        Expr::Chain(first, terms) => {
            expr_fits(tags, first.get()) && terms_fit(tags, terms.as_slice())
        }
    }
}

#[cycle(fits)]
fn terms_fit(tags: usize, terms: &[Term]) -> bool
    ensures { result ≡ all_true (map (term_fits tags) terms.now) }
{
    for term in terms {
        if !expr_fits(tags, &term.operand) {
            return false;
        }
    }
    true
}

fn all_fit(tags: usize, values: &[Expr]) -> bool
    ensures { result ≡ list_all (expr_fits tags) values.now }
{
    values.iter().all(|value| expr_fits(tags, value))
}

/// Whether a line has only counts of tags, of which there are so many.
pub fn head_fits(tags: usize, said: &Head) -> bool
    ensures { result ≡ head_fits tags said.now }
{
    match said {
        Head::Print(_, values) => all_fit(tags, values.as_slice()),
        Head::If(x) | Head::Elif(x) => expr_fits(tags, x),
        Head::Pass | Head::Else => true,
    }
}
