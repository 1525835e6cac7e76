//! Identifiers, numbers and strings, from their tokens.
ghost use Rattle.std.specs.Prelude.{◌≡◌, IfOk};
ghost use Rattle.vlog_parts.specs.Leaves as spec;
ghost use Rattle.vlog_parts.specs.Values.{no_expr};

use crate::value::NO_SPAN;
use mcy_base::{Bytes, Text};
use std::alloc::{AllocError, Global};
use vlog_syntax::{Expr, Identifier, Number};
use vlog_token::{Token, name_of, string_value};

/// The identifier of a token.
#[tactic(auto, unfolding(crate::specs::Leaves::identifier))]
pub fn identifier(alloc: Global, token: Option<Token<'_>>) -> Result<Identifier, AllocError>
    ensures { IfOk result (λ i. i ≡ spec.identifier token.entry) }
{
    match token {
        Some(token) => Ok(Identifier {
            name: Text::copy(alloc, name_of(&token))?,
            span: token.span,
        }),
        None => Ok(Identifier {
            name: Text::from_string(String::new(alloc)),
            span: NO_SPAN,
        }),
    }
}

/// The characters of a string token.
#[tactic(auto, unfolding(crate::specs::Leaves::string))]
pub fn string(alloc: Global, token: Option<Token<'_>>) -> Result<Bytes, AllocError>
    ensures { IfOk result (λ b. b ≡ spec.string token.entry) }
{
    match token {
        Some(token) => Ok(Bytes::from_vec(string_value(alloc, token.text)?)),
        None => Ok(Bytes::from_vec(Vec::new(alloc))),
    }
}

/// The expression in the place of what is no number.
fn no_expr(alloc: Global) -> Expr
    ensures { result ≡ no_expr }
{
    Expr::Name(Identifier {
        name: Text::from_string(String::new(alloc)),
        span: NO_SPAN,
    })
}

/// The number of a token.
#[tactic(auto, unfolding(crate::specs::Leaves::number))]
pub fn number(alloc: Global, token: Option<Token<'_>>) -> Expr
    ensures { result ≡ spec.number token.entry }
{
    let Some(token) = token else {
        return no_expr(alloc);
    };
    match vlog_token::number(token.text) {
        Some(number) => Expr::Number(Number {
            value: number.value,
            is_signed: number.is_signed,
            x_bits: number.x_bits,
            z_bits: number.z_bits,
            span: token.span,
        }),
        None => no_expr(alloc),
    }
}
