//! The bits of constants in expressions.
ghost use Rattle.std.specs.Prelude.{◌≡◌, ℕ, length, IfOk, IsTrue};
ghost use Rattle.netlist_core.specs.Numbers.{number};
ghost use Rattle.netlist_core.specs.Runs.{Nets, values};
ghost use Rattle.vlog_meaning.specs.Scopes.{Store, names_of, nothing};
ghost use Rattle.vlog_meaning.specs.Senses.{sense, is_empty, IsWhole, IsContext};
ghost use Rattle.net_builder.specs.Building.{AllBelow};
ghost use Rattle.elab_expr.specs.Laid.{number_bits};

use crate::wiring::constant_bits;
use netlist_core::BitList;
use std::alloc::{AllocError, Global};
use vlog_meaning::{Scope, Shape, value_of};
use vlog_syntax::Expr;

/// The bits of a constant at a width and sign.
pub(crate) fn folded(
    alloc: Global,
    expr: &Expr,
    scope: &Scope,
    context: Shape,
) -> Result<BitList, AllocError>
    requires whole { IsWhole (names_of scope.now) expr.now }
    requires constant { IsTrue (is_empty (sense (names_of scope.now) expr.now).signals) }
    requires context { IsContext (sense (names_of scope.now) expr.now).shape context }
    ensures is { IfOk result (λ bits. bits ≡ number_bits context.width ((sense (names_of scope.now) expr.now).value nothing context)) }
    ensures long { IfOk result (λ bits. length bits ≡ context.width) }
    ensures value { IfOk result (λ bits. (nets : Nets) (signals : Store) → number (values nets bits) ≡ (sense (names_of scope.now) expr.now).value signals context) }
    ensures below { IfOk result (λ bits. (n : ℕ) → AllBelow n bits) }
{
    Ok(constant_bits(alloc, value_of(expr, scope, &[], context), context.width)?)
}
