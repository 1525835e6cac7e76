//! The bit of a condition.
ghost use Rattle.std.specs.Prelude.{◌≡◌, ◌+◌, ◌≤◌, ℕ, List, [], nat_lt, length, IfOk, IfErr, if◌then◌else◌};
ghost use Rattle.netlist_core.specs.declared.bit.Bit.{Bit as AnyBit};
ghost use Rattle.vlog_meaning.specs.Scopes.{names_of};
ghost use Rattle.vlog_meaning.specs.Senses.{sense};
ghost use Rattle.net_builder.specs.Building.{AllBelow, HasSignals};
ghost use Rattle.elab_expr.specs.Expressions.{refusals};
ghost use Rattle.net_builder.specs.Refusals.{IsShort};
ghost use Rattle.proc_muxes.specs.Builds.{BuildsBit, BuildsTest};
ghost use Rattle.proc_muxes.specs.Working.{test_cells};

use elab_expr::{build_expr, ror_cell};
use mcy_base::Span;
use net_builder::{Builder, ElabError};
use netlist_core::BitList;
use vlog_meaning::{Scope, shape_of};
use vlog_syntax::Expr;

/// One bit of bits: themselves, or their `ror`.
fn reduced(builder: &mut Builder, bits: BitList, at: Span) -> Result<BitList, ElabError>
    requires some { 1 ≤ length bits }
    requires narrow { length bits ≤ 128 }
    requires below { AllBelow builder.old.nets bits }
    ensures bit { IfOk result (λ test. BuildsBit at bits builder.old builder.new test) }
    ensures one { IfOk result (λ test. length test ≡ 1) }
    ensures below { IfOk result (λ test. AllBelow builder.new.nets test) }
    ensures short { IfErr result (λ e. IsShort (length builder.old.cells + (if nat_lt 1 (length bits) then 1 else 0)) e) }
{
    if bits.as_slice().len() == 1 {
        return Ok(bits);
    }
    Ok(ror_cell(builder, bits, at)?)
}

/// Adds the cells of a condition in which nothing is refused, and gives the bit that is 1 where it holds (IEEE 1364-2005,
/// 9.4). A condition wider than one bit gets a `ror` after its own cells.
pub fn build_test(
    builder: &mut Builder,
    scope: &Scope,
    condition: &Expr,
) -> Result<BitList, ElabError>
    requires clear { refusals (names_of scope.now) condition.now (sense (names_of scope.now) condition.now).shape ≡ [] }
    requires signals { HasSignals (names_of scope.now) builder.old }
    ensures built { IfOk result (λ test. (pending : ℕ → List AnyBit) → BuildsTest (record { names = names_of scope.now; condition = condition.now }) (record { building = builder.old; pending = pending }) (record { building = builder.new; pending = pending }) test) }
    ensures one { IfOk result (λ test. length test ≡ 1) }
    ensures below { IfOk result (λ test. AllBelow builder.new.nets test) }
    ensures short { IfErr result (λ e. IsShort (length builder.old.cells + test_cells (names_of scope.now) condition.now) e) }
{
    let shape = shape_of(condition, scope);
    let bits = build_expr(builder, condition, scope, shape.width, shape.is_signed)?;
    Ok(reduced(builder, bits, condition.first_token())?)
}
