//! What parts a list of tokens: the operators of one precedence that stand outside parentheses.
ghost use Rattle.std.specs.Prelude.{◌≡◌, ◌<◌, ◌+◌, drop, length};
ghost use Rattle.tag_lines.specs.Grammar.{comparison_of, is_separator};

use crate::expr::Comparison;
use script_lines::{Keyword, Sign, Token};

/// The operators that part a list of tokens, from the lowest precedence to the highest.
#[derive(Clone, Copy)]
pub enum Separator {
    Or,
    And,
    Comparison,
}

/// The comparison that a token stands for.
pub fn comparison_of(token: &Token) -> Option<Comparison>
    ensures { result ≡ comparison_of token.now }
{
    match token {
        Token::Equal => Some(Comparison::Equal),
        Token::NotEqual => Some(Comparison::NotEqual),
        _ => None,
    }
}

fn is_separator(separator: Separator, token: &Token) -> bool
    ensures { result ≡ is_separator separator token.now }
{
    match (separator, token) {
        (Separator::Or, Token::Keyword(Keyword::Or)) => true,
        (Separator::And, Token::Keyword(Keyword::And)) => true,
        (Separator::Comparison, Token::Equal | Token::NotEqual) => true,
        _ => false,
    }
}

impl Sign for Separator {
    ghost signs = { is_separator };

    fn is_sign(self, token: &Token) -> bool {
        is_separator(self, token)
    }
}

/// The tokens behind one of them.
pub fn behind(len: usize, tokens: &[Token]) -> &[Token]
    requires { len < length tokens.now }
    ensures value { result.now ≡ drop (len + 1) tokens.now }
    ensures shorter { length result.now < length tokens.now }
{
    &tokens[len + 1..]
}
