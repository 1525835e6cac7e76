//! What a token is to the directives (IEEE 1364-2005, 19).
ghost use Rattle.std.specs.Prelude.{◌≡◌, bytes_eq};
ghost use Rattle.std.specs.List.{list_any};
ghost use Rattle.vlog_expand.specs.Words.{is_macro_name, is_shown, is_use, name_of, named_word, word_of};

use vlog_token::{Token, TokenKind};

/// What a token is to the directives.
#[derive(Clone, Copy, Debug, PartialEq, Eq)]
pub enum Word {
    /// No directive.
    Plain,
    /// The use of a macro.
    Use,
    Define,
    Undef,
    Ifdef,
    Ifndef,
    Else,
    Elsif,
    Endif,
    /// A directive that is dropped with the rest of its line.
    Dropped,
    Include,
    /// A directive that is refused by its name.
    Refused,
}

/// The directives that are refused by their names, beside `elsif`.
const REFUSED_NAMES: [&str; 9] = [
    "begin_keywords",
    "celldefine",
    "end_keywords",
    "endcelldefine",
    "line",
    "nounconnected_drive",
    "pragma",
    "resetall",
    "unconnected_drive",
];

fn is_among(names: &[&str], name: &[u8]) -> bool
    ensures { result ≡ list_any (λ n. bytes_eq n.now name.now) names.now }
{
    names.iter().any(|n| n.as_bytes() == name)
}

/// The directive of this name, or the use of a macro of this name.
#[tactic(auto, unfolding(crate::specs::Words::named_word))]
fn named_word(name: &[u8]) -> Word
    ensures { result ≡ named_word name.now }
{
    if name == "define".as_bytes() {
        return Word::Define;
    }
    if name == "undef".as_bytes() {
        return Word::Undef;
    }
    if name == "ifdef".as_bytes() {
        return Word::Ifdef;
    }
    if name == "ifndef".as_bytes() {
        return Word::Ifndef;
    }
    if name == "else".as_bytes() {
        return Word::Else;
    }
    if name == "elsif".as_bytes() {
        return Word::Elsif;
    }
    if name == "endif".as_bytes() {
        return Word::Endif;
    }
    if name == "timescale".as_bytes() {
        return Word::Dropped;
    }
    if name == "default_nettype".as_bytes() {
        return Word::Dropped;
    }
    if name == "include".as_bytes() {
        return Word::Include;
    }
    if is_among(&REFUSED_NAMES, name) {
        return Word::Refused;
    }
    Word::Use
}

/// The name of a directive or a use, which stands behind the `` ` ``.
pub fn name_of<'a>(token: &Token<'a>) -> &'a [u8]
    ensures { result.now ≡ name_of token.now }
{
    match token.text.as_bytes() {
        [] => &[],
        [_, name @ ..] => name,
    }
}

/// What the token is to the directives.
#[tactic(auto, unfolding(crate::specs::Words::word_of))]
pub fn word_of(token: &Token<'_>) -> Word
    ensures { result ≡ word_of token.now }
{
    if token.kind == TokenKind::Directive {
        named_word(name_of(token))
    } else {
        Word::Plain
    }
}

/// Whether the token is the use of a macro.
pub fn is_use(token: &Token<'_>) -> bool
    ensures { result ≡ is_use (word_of token.now) }
{
    word_of(token) == Word::Use
}

/// Whether the token is no directive, or the use of a macro.
pub fn is_shown(token: &Token<'_>) -> bool
    ensures { result ≡ is_shown (word_of token.now) }
{
    matches!(word_of(token), Word::Plain | Word::Use)
}

/// Whether the token may be the name of a macro that is defined.
#[tactic(auto, unfolding(crate::specs::Words::is_macro_name))]
pub fn is_macro_name(token: &Token<'_>) -> bool
    ensures { result ≡ is_macro_name token.now }
{
    token.kind == TokenKind::Name && named_word(token.text.as_bytes()) == Word::Use
}
