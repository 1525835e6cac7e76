//! Expressions as cells: the names of a row are signals, whose nets have the values that the row gives, and the cells that its
//! expression becomes compute its value.
ghost use Rattle.std.specs.Prelude.{◌≤◌, IfSome};
ghost use Rattle.vlog_meaning.specs.Scopes.{names_of};
ghost use Rattle.net_builder.specs.Building.{HasSignals};
ghost use Rattle.elab_cases.specs.Benches.{IsSound};

mod computing;

use crate::bench::Bench;
use case_lines::Page;
use computing::{compute, number_at, push_word};
use elab_expr::build_expr;
use expression_rows::{Stack, read_given};
use net_builder::Builder;
use netlist_core::BitList;
use std::alloc::Global;
use vlog_meaning::{Scope, shape};
use vlog_syntax::Expr;

/// Declares the names of a row, whose nets have their values. Gives the width.
fn declare_names(bench: &mut Bench, nets: &mut Vec<bool>, head: &str) -> Option<u8>
    requires { IsSound bench.old }
    ensures { IfSome result (λ _. IsSound bench.new) }
{
    let mut width: u8 = 0;
    for word in head.split_whitespace() {
        match read_given(word) {
            Some((name, given)) => {
                let wide = given.value.width();
                bench.signal(name, wide, 0, given.is_signed).ok()?;
                push_word(nets, given.value).ok()?;
            }
            None => width = word.parse().ok()?,
        }
    }
    Some(width)
}

/// The bits of an expression where it is assigned to so many bits, if it becomes cells.
fn bits_of(builder: &mut Builder, scope: &Scope, expr: &Expr, width: u8) -> Option<BitList>
    requires some { 1 ≤ width }
    requires narrow { width ≤ 128 }
    requires signals { HasSignals (names_of scope.now) builder.old }
{
    let own = shape(expr, scope).ok()?;
    let at = width.max(own.width);
    build_expr(builder, expr, scope, at, own.is_signed).ok()
}

/// The value of an expression over the names of a row.
fn computed(bench: &mut Bench, nets: &mut Vec<bool>, head: &str, expr: &Expr) -> Option<u128>
    requires { IsSound bench.old }
{
    let width = declare_names(bench, nets, head)?;
    if width < 1 || width > 128 {
        return None;
    }
    let bits = bits_of(&mut bench.builder, &bench.scope, expr, width)?;
    compute(nets, bench.builder.cells())?;
    let assigned = bits.as_slice().get(..usize::from(width))?;
    Some(number_at(nets.as_slice(), assigned))
}

/// The value of a row's expression where it is assigned to so many bits, if it becomes cells.
fn value_of_row(alloc: Global, row: &str) -> Option<u128> {
    let (head, expression) = row.split_once(';')?;
    let expr = Stack::read(alloc, expression)?;
    let mut bench = Bench::new(alloc);
    let mut nets = Vec::new(alloc);
    computed(&mut bench, &mut nets, head, &expr)
}

/// Puts the value of a row's expression.
pub(crate) fn put_value(alloc: Global, page: &mut Page, row: &str) {
    match value_of_row(alloc, row) {
        Some(value) => page.put_number(value),
        None => page.put("no value"),
    }
    page.put("\n");
}
