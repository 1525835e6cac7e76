//! Start values: constants, and for the clock 0.
ghost use Rattle.std.specs.Prelude.{◌≡◌, ◌≤◌, None, Some, slice_get, MatchResult};
ghost use Rattle.vlog_meaning.specs.Operators.{IsSized};
ghost use Rattle.vlog_meaning.specs.Scopes.{names_of, decl_shape};
ghost use Rattle.elab_proc.specs.Refusals.{AreSized};
ghost use Rattle.tb_faults.specs.Order.{IsFirst};
ghost use Rattle.tb_refusals.specs.Refusals.{start_error, start_value, value_faults, start_faults, declared_start};
ghost use Rattle.tb_refusals.specs.Views.{context_of};

use crate::context::{Context, is_clock};
use mcy_base::{Span, Word};
use tb_faults::BenchFault;
use tb_items::of_const;
use vlog_meaning::{Cause, ConstError, Decl, Fault, Scope, constant_at};
use vlog_syntax::{Expr, Feature};

/// The value of an expression that a signal of so many bits starts with, or why it is no constant.
pub fn start_value(expr: &Expr, scope: &Scope, width: u8) -> Result<Word, ConstError>
    requires some { 1 ≤ width }
    requires narrow { width ≤ 128 }
    ensures { MatchResult result (λ w. (w.width ≡ width) × (w.bits ≡ start_value (names_of scope.now) width expr.now) × (start_error (names_of scope.now) width expr.now ≡ None)) (λ e. start_error (names_of scope.now) width expr.now ≡ Some e) }
{
    constant_at(expr, scope, width)
}

/// What a value is refused for, of the clock or of another signal.
fn value_fault(is_clock: bool, at: Span, value: Result<Word, ConstError>) -> Option<BenchFault>
    ensures { MatchResult value (λ w. IsFirst (value_faults is_clock at None w.bits) result) (λ e. IsFirst (value_faults is_clock at (Some e) 0) result) }
{
    match value {
        Err(error) => Some(of_const(error)),
        Ok(word) => {
            if is_clock && word.bits() != 0 {
                Some(BenchFault::Unsupported(at, Feature::ClockStart))
            } else {
                None
            }
        }
    }
}

/// What the start value of a name is refused for.
pub(crate) fn start_fault(
    context: Context<'_>,
    is_clock: bool,
    at: Span,
    expr: &Expr,
    decl: Option<Decl>,
) -> Option<BenchFault>
    requires { IsSized (decl_shape decl) }
    ensures { IsFirst (start_faults (context_of context.entry) is_clock at expr.now decl) result }
{
    match decl {
        Some(Decl::Signal { width, .. }) => {
            value_fault(is_clock, at, start_value(expr, context.scope, width))
        }
        _ => Some(BenchFault::Wrong(Fault {
            cause: Cause::Unknown,
            span: at,
        })),
    }
}

/// What the declared start of a signal is refused for, by its number.
pub(crate) fn declared_fault(context: Context<'_>, number: u32, expr: &Expr) -> Option<BenchFault>
    requires { AreSized (names_of context.scope.now) }
    ensures { IsFirst (declared_start (context_of context.entry) expr.now (slice_get context.entry.signals.now number)) result }
{
    let signal = context.signals.get(number as usize)?;
    let name = signal.name.as_str();
    let is_clock = is_clock(context.clock, name);
    start_fault(
        context,
        is_clock,
        signal.span,
        expr,
        context.scope.get(name),
    )
}
