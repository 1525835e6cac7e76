//! The rest of a line.
ghost use Rattle.std.specs.Prelude.{◌≡◌, ◌≤◌, length};
ghost use Rattle.vlog_expand.specs.Lines.{behind_line, rest_of_line};

use vlog_token::Token;

/// The tokens that begin the list and stand on this line, and those behind them.
pub fn rest_of_line<'t, 'a>(
    line: u32,
    tokens: &'t [Token<'a>],
) -> (&'t [Token<'a>], &'t [Token<'a>])
    ensures front { result.0.now ≡ rest_of_line line tokens.now }
    ensures back { result.1.now ≡ behind_line line tokens.now }
    ensures shorter { length result.1.now ≤ length tokens.now }
{
    for (i, token) in tokens.iter().enumerate() {
        if token.span.line != line {
            return (&tokens[..i], &tokens[i..]);
        }
    }
    (tokens, &[])
}
