//! Formulas of names and of numbers.
ghost use Rattle.std.specs.Prelude.{◌≡◌, ◌<◌, ◌≤◌, ◌^◌, ℕ, List};
ghost use Rattle.vlog_meaning.specs.Integers.{extended};
ghost use Rattle.vlog_meaning.specs.Operators.{IsSized};
ghost use Rattle.vlog_meaning.specs.Scopes.{Store, decl_shape, decl_value};
ghost use Rattle.vlog_meaning.specs.Senses.{IsContext, taken};
ghost use Rattle.tb_formulas.specs.Formulas.{formula_value, FitsIn};
ghost use Rattle.tb_formulas.specs.Signals.{HasSignal};

use crate::formula::Formula;
use vlog_meaning::{Decl, Shape, extend};

/// The formula of a number at the width and sign of its context.
pub(crate) fn number_formula(width: u8, bits: u128, context: Shape) -> Formula
    requires some { 1 ≤ width }
    requires wide { width ≤ context.width }
    requires narrow { context.width ≤ 128 }
    requires fits { bits < 2 ^ width }
    ensures means { (store : Store) → formula_value result store ≡ extended (record { width = width; is_signed = context.is_signed }) context.width bits }
    ensures fits { (widths : List ℕ) → FitsIn widths result context.width }
{
    let own = Shape {
        width,
        is_signed: context.is_signed,
    };
    Formula::Number(extend(own, bits, context.width))
}

/// The formula of a name at the width and sign of its context.
pub(crate) fn name_formula(decl: Option<Decl>, context: Shape) -> Formula
    requires sized { IsSized (decl_shape decl) }
    requires context { IsContext (decl_shape decl) context }
    ensures means { (store : Store) → formula_value result store ≡ taken (decl_shape decl) context (decl_value store decl) }
    ensures fits { (widths : List ℕ) → HasSignal widths decl → FitsIn widths result context.width }
{
    match decl {
        Some(Decl::Signal { width, number, .. }) => {
            if context.is_signed {
                Formula::SignedSignal(number, width, context.width)
            } else {
                Formula::Signal(number, context.width)
            }
        }
        Some(Decl::Constant { value, .. }) => number_formula(value.width(), value.bits(), context),
        None => number_formula(1, 0, context),
    }
}
