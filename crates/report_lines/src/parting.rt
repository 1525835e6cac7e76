//! What parts a list of tokens: the signs of one precedence that stand outside parentheses.
ghost use Rattle.std.specs.Prelude.{◌≡◌, ◌≤◌, ◌+◌, drop, length};
ghost use Rattle.report_lines.specs.Grammar.{is_at, is_sign, operator_of, symbol_operator};

use crate::expr::Operator;
use script_lines::{Keyword, Sign, Token, is_symbol};

/// What parts a list of tokens: commas, or the operators of one precedence, from the lowest to the highest.
#[derive(Clone, Copy)]
pub enum Level {
    Comma,
    Or,
    And,
    Comparison,
    Sum,
    Product,
}

/// The operator that a byte stands for.
fn symbol_operator(byte: u8) -> Option<Operator>
    ensures { result ≡ symbol_operator byte }
{
    match byte {
        b'<' => Some(Operator::Less),
        b'>' => Some(Operator::Greater),
        b'+' => Some(Operator::Plus),
        b'-' => Some(Operator::Minus),
        b'*' => Some(Operator::Times),
        b'/' => Some(Operator::Over),
        _ => None,
    }
}

/// The operator that a token stands for.
pub fn operator_of(token: &Token) -> Option<Operator>
    ensures { result ≡ operator_of token.now }
{
    match token {
        Token::Keyword(Keyword::Or) => Some(Operator::Or),
        Token::Keyword(Keyword::And) => Some(Operator::And),
        Token::Equal => Some(Operator::Equal),
        Token::NotEqual => Some(Operator::NotEqual),
        Token::LessEqual => Some(Operator::LessEqual),
        Token::GreaterEqual => Some(Operator::GreaterEqual),
        Token::Symbol(byte) => symbol_operator(*byte),
        _ => None,
    }
}

/// Whether an operator is of this level.
fn is_at(level: Level, operator: Operator) -> bool
    ensures { result ≡ is_at level operator }
{
    match level {
        Level::Comma => false,
        Level::Or => match operator {
            Operator::Or => true,
            _ => false,
        },
        Level::And => match operator {
            Operator::And => true,
            _ => false,
        },
        Level::Comparison => match operator {
            Operator::Or | Operator::And => false,
            Operator::Plus | Operator::Minus => false,
            Operator::Times | Operator::Over => false,
            _ => true,
        },
        Level::Sum => match operator {
            Operator::Plus => true,
            Operator::Minus => true,
            _ => false,
        },
        Level::Product => match operator {
            Operator::Times => true,
            Operator::Over => true,
            _ => false,
        },
    }
}

/// Whether the token parts at this level.
fn is_sign(level: Level, token: &Token) -> bool
    ensures { result ≡ is_sign level token.now }
{
    match level {
        Level::Comma => is_symbol(b',', token),
        _ => match operator_of(token) {
            Some(operator) => is_at(level, operator),
            None => false,
        },
    }
}

impl Sign for Level {
    ghost signs = { is_sign };

    fn is_sign(self, token: &Token) -> bool {
        is_sign(self, token)
    }
}

/// The tokens behind so many.
pub fn behind(len: usize, tokens: &[Token]) -> &[Token]
    requires { len ≤ length tokens.now }
    ensures value { result.now ≡ drop len tokens.now }
    ensures rest { len + length result.now ≡ length tokens.now }
{
    &tokens[len..]
}
