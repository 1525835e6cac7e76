//! The words of the two languages that are no names.
ghost use Rattle.std.specs.Prelude.{◌≡◌, bytes_eq};
ghost use Rattle.script_lines.specs.Tokens.{connective, keyword_of};

/// A word that is no name.
#[derive(Clone, Copy, Debug, PartialEq, Eq)]
pub enum Keyword {
    And,
    Assert,
    Elif,
    Else,
    False,
    If,
    Not,
    Or,
    Pass,
    True,
}

/// Whether the word is spelled so.
fn is_spelled(word: &[u8], spelled: &str) -> bool
    ensures { result ≡ bytes_eq word.now spelled.now }
{
    word == spelled.as_bytes()
}

/// A keyword of expressions.
#[tactic(auto, unfolding(crate::specs::Tokens::connective))]
fn connective(word: &[u8]) -> Option<Keyword>
    ensures { result ≡ connective word.now }
{
    if is_spelled(word, "and") {
        return Some(Keyword::And);
    }
    if is_spelled(word, "or") {
        return Some(Keyword::Or);
    }
    if is_spelled(word, "not") {
        return Some(Keyword::Not);
    }
    if is_spelled(word, "True") {
        return Some(Keyword::True);
    }
    if is_spelled(word, "False") {
        return Some(Keyword::False);
    }
    None
}

/// The keyword that is spelled so.
#[tactic(auto, unfolding(crate::specs::Tokens::keyword_of))]
pub fn keyword_of(word: &[u8]) -> Option<Keyword>
    ensures { result ≡ keyword_of word.now }
{
    if is_spelled(word, "if") {
        return Some(Keyword::If);
    }
    if is_spelled(word, "elif") {
        return Some(Keyword::Elif);
    }
    if is_spelled(word, "else") {
        return Some(Keyword::Else);
    }
    if is_spelled(word, "assert") {
        return Some(Keyword::Assert);
    }
    if is_spelled(word, "pass") {
        return Some(Keyword::Pass);
    }
    connective(word)
}
