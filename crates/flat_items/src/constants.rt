//! The constants of generate constructs (IEEE 1364-2005, 12.4).
ghost use Rattle.std.specs.Prelude.{◌≡◌};
ghost use Rattle.vlog_meaning.specs.Scopes.{names_of};
ghost use Rattle.flat_items.specs.Flattened.{condition_in, integer_in};

use flat_instances::ItemError;
use vlog_meaning::{Scope, constant, constant_at};
use vlog_syntax::Expr;

/// The value of a condition, which stands for itself.
#[tactic(auto, using(crate::proofs::Faultless::kept, crate::proofs::Faultless::lost))]
pub(crate) fn condition(expr: &Expr, scope: &Scope) -> Result<u128, ItemError>
    ensures { result ≡ condition_in (names_of scope.now) expr.now }
{
    match constant(expr, scope) {
        Ok(word) => Ok(word.bits()),
        Err(error) => Err(ItemError::Constant(error)),
    }
}

/// The value of a loop's start or step, at the 32 bits of its variable.
#[tactic(auto, using(crate::proofs::Faultless::kept, crate::proofs::Faultless::lost))]
pub(crate) fn integer(expr: &Expr, scope: &Scope) -> Result<u32, ItemError>
    ensures { result ≡ integer_in (names_of scope.now) expr.now }
{
    match constant_at(expr, scope, 32) {
        Ok(word) => Ok(word.bits() as u32),
        Err(error) => Err(ItemError::Constant(error)),
    }
}
