//! What a parameter is declared as (IEEE 1364-2005, 4.10 and 12.2).
ghost use Rattle.std.specs.Prelude.{◌≡◌, ◌≤◌, ◌%◌, ◌^◌, ◌||◌, IfOk};
ghost use Rattle.std.specs.Option.{option_map};
ghost use Rattle.vlog_meaning.specs.Answers.{least, refusal, const_error};
ghost use Rattle.vlog_meaning.specs.Scopes.{names_of};
ghost use Rattle.vlog_meaning.specs.Senses.{sense};
ghost use Rattle.flat_scopes.specs.Parameters.{parameter_faults, IsDeclared, HasBits};

use crate::range::VectorBits;
use vlog_meaning::{ConstError, Decl, Scope, constant, constant_at, shape};
use vlog_syntax::Expr;

/// The bits of a parameter: those of its value, which is signed also where `signed` is written, or those that its range or
/// `integer` says.
#[derive(Clone, Copy, Debug, PartialEq, Eq)]
pub enum ParameterBits {
    OfValue(bool),
    OfRange(VectorBits, bool),
}

/// What a parameter with this value is declared as. The value is read in `scope`.
pub fn parameter_decl(bits: ParameterBits, value: &Expr, scope: &Scope) -> Result<Decl, ConstError>
    requires { HasBits bits }
    ensures refused { refusal result ≡ option_map const_error (least (parameter_faults bits (sense (names_of scope.now) value.now))) }
    ensures declared { IfOk result (λ decl. IsDeclared bits (sense (names_of scope.now) value.now) decl) }
{
    match bits {
        ParameterBits::OfValue(is_signed) => {
            let number = constant(value, scope)?;
            let own = shape(value, scope)?;
            Ok(Decl::Constant {
                value: number,
                low: 0,
                is_signed: is_signed || own.is_signed,
            })
        }
        ParameterBits::OfRange(bits, is_signed) => Ok(Decl::Constant {
            value: constant_at(value, scope, bits.width)?,
            low: bits.low,
            is_signed,
        }),
    }
}
