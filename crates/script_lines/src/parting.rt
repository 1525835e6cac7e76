//! Where a list of tokens is parted: at the signs that stand outside parentheses.
ghost use Rattle.std.specs.Prelude.{◌≡◌, ◌≤◌, ◌+◌, ◌<◌, ◌^◌, ◌==◌, ◌&&◌, Bool, length, take};
ghost use Rattle.script_lines.specs.declared.token.Token.{Token};
ghost use Rattle.script_lines.specs.Parting.{front_len, is_symbol, open_behind};

use crate::token::Token;

/// What parts a list of tokens.
pub trait Sign: Copy {
    // the tokens that do
    ghost signs: { Self → Token → Bool };

    /// Whether the token does.
    fn is_sign(self, token: &Token) -> bool
        ensures { result ≡ signs self token.now };
}

/// Whether the token is this byte.
pub fn is_symbol(byte: u8, token: &Token) -> bool
    ensures { result ≡ is_symbol byte token.now }
{
    match token {
        Token::Symbol(other) => *other == byte,
        _ => false,
    }
}

/// How many parentheses are open behind a token.
fn open_behind(opened: usize, token: &Token) -> usize
    requires { opened + 1 < 2 ^ 64 }
    ensures value { result ≡ open_behind opened token.now }
    ensures one { result ≤ opened + 1 }
{
    if is_symbol(b'(', token) {
        opened + 1
    } else if is_symbol(b')', token) {
        opened.saturating_sub(1)
    } else {
        opened
    }
}

/// Whether the token is a sign outside parentheses, of which so many are open.
fn parts_here<S: Sign>(sign: S, opened: usize, token: &Token) -> bool
    ensures { result ≡ (opened == 0 && S.signs sign token.now) }
{
    opened == 0 && sign.is_sign(token)
}

/// How many tokens stand before the first sign outside parentheses.
pub fn front_len<S: Sign>(sign: S, tokens: &[Token]) -> usize
    ensures value { result ≡ front_len (S.signs sign) 0 tokens.now }
    ensures shorter { result ≤ length tokens.now }
{
    let mut opened = 0;
    for (i, token) in tokens.iter().enumerate() {
        if parts_here(sign, opened, token) {
            return i;
        }
        opened = open_behind(opened, token);
    }
    tokens.len()
}

/// So many tokens in front.
pub fn before(len: usize, tokens: &[Token]) -> &[Token]
    requires { len ≤ length tokens.now }
    ensures { result.now ≡ take len tokens.now }
{
    &tokens[..len]
}
