//! What a line says, and what it names.
ghost use Rattle.std.specs.Prelude.{◌≡◌, IfOk, OnOk};
ghost use Rattle.tag_lines.specs.Grammar.{before_symbol, expression, known_words};
ghost use Rattle.tag_lines.specs.Lines.{assigned, head_of, is_colon, keyword_head, plain_head};

use crate::expr::Expr;
use crate::reading::expression;
use crate::words::{argument_of, is_function, is_last, place_in_names, place_in_texts};
use mcy_base::{Bytes, Text};
use script_lines::{Keyword, Token, is_symbol};
use std::alloc::{AllocError, Global};

/// What a line says. A name or tag is told by its place among those of the script or project, or by how many these are where it is
/// none of them.
#[derive(Drop)]
pub enum Head {
    /// `name = value`
    Assign(usize, Expr),
    /// `tag("NAME")`
    Tag(usize),
    /// `assert condition`
    Assert(Expr),
    /// `pass`
    Pass,
    /// `if condition:`
    If(Expr),
    /// `elif condition:`
    Elif(Expr),
    /// `else:`
    Else,
}

/// The words that a line may use: the tests and tags of the project, and the names of the script up to this line and on it.
#[derive(Clone, Copy)]
pub struct Words<'a> {
    pub tests: &'a [Text],
    pub tags: &'a [Text],
    pub names: &'a [Bytes],
}

fn is_colon(tokens: &[Token]) -> bool
    ensures { result ≡ is_colon tokens.now }
{
    match tokens {
        [token] => is_symbol(b':', token),
        _ => false,
    }
}

/// An expression and a colon.
#[tactic(auto, unfolding(crate::specs::Grammar::before_symbol))]
fn condition(
    alloc: Global,
    words: &Words<'_>,
    room: usize,
    tokens: &[Token],
) -> Result<Option<Expr>, AllocError>
    ensures { IfOk result (λ x. x ≡ before_symbol 58 (expression (known_words words.now.tests.now words.now.names.now) room) tokens.now) }
{
    if !is_last(b':', tokens) {
        return Ok(None);
    }
    expression(
        alloc,
        words.tests,
        words.names,
        room,
        &tokens[..tokens.len() - 1],
    )
}

/// What a line says that begins with a keyword, of which these tokens stand behind it.
#[tactic(auto, unfolding(crate::specs::Lines::keyword_head))]
fn keyword_head(
    alloc: Global,
    words: &Words<'_>,
    room: usize,
    keyword: Keyword,
    tokens: &[Token],
) -> Result<Option<Head>, AllocError>
    ensures { IfOk result (λ x. x ≡ keyword_head (expression (known_words words.now.tests.now words.now.names.now) room) keyword tokens.now) }
{
    match keyword {
        Keyword::Pass => Ok(if tokens.is_empty() {
            Some(Head::Pass)
        } else {
            None
        }),
        Keyword::Else => Ok(if is_colon(tokens) {
            Some(Head::Else)
        } else {
            None
        }),
        Keyword::Assert => {
            match expression(alloc, words.tests, words.names, room, tokens)? {
                Some(x) => Ok(Some(Head::Assert(x))),
                None => Ok(None),
            }
        }
        Keyword::If => match condition(alloc, words, room, tokens)? {
            Some(x) => Ok(Some(Head::If(x))),
            None => Ok(None),
        },
        Keyword::Elif => match condition(alloc, words, room, tokens)? {
            Some(x) => Ok(Some(Head::Elif(x))),
            None => Ok(None),
        },
        _ => Ok(None),
    }
}

/// An assignment.
#[tactic(auto, unfolding(crate::specs::Lines::assigned))]
fn assigned(
    alloc: Global,
    words: &Words<'_>,
    room: usize,
    tokens: &[Token],
) -> Result<Option<Head>, AllocError>
    ensures { IfOk result (λ x. x ≡ assigned words.now.names.now (expression (known_words words.now.tests.now words.now.names.now) room) tokens.now) }
{
    let [Token::Name(name), sign, more @ ..] = tokens else {
        return Ok(None);
    };
    if !is_symbol(b'=', sign) || is_function(name.as_slice()) {
        return Ok(None);
    }
    let place = place_in_names(name.as_slice(), words.names);
    match expression(alloc, words.tests, words.names, room, more)? {
        Some(x) => Ok(Some(Head::Assign(place, x))),
        None => Ok(None),
    }
}

/// A tag or an assignment.
#[tactic(auto, unfolding(crate::specs::Lines::plain_head))]
fn plain_head(
    alloc: Global,
    words: &Words<'_>,
    room: usize,
    tokens: &[Token],
) -> Result<Option<Head>, AllocError>
    ensures { IfOk result (λ x. x ≡ plain_head words.now.tags.now words.now.names.now (expression (known_words words.now.tests.now words.now.names.now) room) tokens.now) }
{
    match argument_of("tag", tokens) {
        Some(name) => Ok(Some(Head::Tag(place_in_texts(name.as_slice(), words.tags)))),
        None => assigned(alloc, words, room, tokens),
    }
}

/// What a line says, where at most so many parentheses and `not`s may be open on it.
#[tactic(auto, unfolding(crate::specs::Lines::head_of))]
pub fn head_of(
    alloc: Global,
    words: &Words<'_>,
    room: usize,
    tokens: &[Token],
) -> Result<Option<Head>, AllocError>
    ensures { IfOk result (λ x. x ≡ head_of words.now.tags.now words.now.names.now (expression (known_words words.now.tests.now words.now.names.now) room) tokens.now) }
{
    match tokens {
        [Token::Keyword(keyword), more @ ..] => keyword_head(alloc, words, room, *keyword, more),
        _ => plain_head(alloc, words, room, tokens),
    }
}
