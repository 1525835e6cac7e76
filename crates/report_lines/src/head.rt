//! What a line of a report says.
ghost use Rattle.std.specs.Prelude.{◌≡◌, IfOk};
ghost use Rattle.tag_lines.specs.Grammar.{before_symbol};
ghost use Rattle.report_lines.specs.Grammar.{expression};
ghost use Rattle.report_lines.specs.Lines.{head_of, is_colon, keyword_head, plain_head};

use crate::expr::Expr;
use crate::format::Format;
use crate::printing::printed;
use crate::reading::expression;
use mcy_base::{Items, Text};
use script_lines::{Keyword, Token, is_symbol};
use std::alloc::{AllocError, Global};
use tag_lines::{is_last, is_word};
use tree_parts::Listed;

/// What a line says. A tag is told by its place among those of the project, or by how many these are where it is none of them.
#[derive(Drop)]
pub enum Head {
    /// `print("text")`, or `print("text" % values)`: there are as many values as the formats take.
    Print(Items<Format>, Listed<Expr>),
    /// `pass`
    Pass,
    /// `if condition:`
    If(Expr),
    /// `elif condition:`
    Elif(Expr),
    /// `else:`
    Else,
}

fn is_colon(tokens: &[Token]) -> bool
    ensures { result ≡ is_colon tokens.now }
{
    match tokens {
        [token] => is_symbol(b':', token),
        _ => false,
    }
}

/// An expression and a colon.
#[tactic(auto, unfolding(tag_lines::specs::Grammar::before_symbol))]
fn condition(
    alloc: Global,
    tags: &[Text],
    room: usize,
    tokens: &[Token],
) -> Result<Option<Expr>, AllocError>
    ensures { IfOk result (λ x. x ≡ before_symbol 58 (expression tags.now room) tokens.now) }
{
    if !is_last(b':', tokens) {
        return Ok(None);
    }
    expression(alloc, tags, room, &tokens[..tokens.len() - 1])
}

/// What a line says that begins with a keyword, of which these tokens stand behind it.
#[tactic(auto, unfolding(crate::specs::Lines::keyword_head))]
fn keyword_head(
    alloc: Global,
    tags: &[Text],
    room: usize,
    keyword: Keyword,
    tokens: &[Token],
) -> Result<Option<Head>, AllocError>
    ensures { IfOk result (λ x. x ≡ keyword_head tags.now room keyword tokens.now) }
{
    match keyword {
        Keyword::Pass => Ok(if tokens.is_empty() {
            Some(Head::Pass)
        } else {
            None
        }),
        Keyword::Else => Ok(if is_colon(tokens) {
            Some(Head::Else)
        } else {
            None
        }),
        Keyword::If => match condition(alloc, tags, room, tokens)? {
            Some(x) => Ok(Some(Head::If(x))),
            None => Ok(None),
        },
        Keyword::Elif => match condition(alloc, tags, room, tokens)? {
            Some(x) => Ok(Some(Head::Elif(x))),
            None => Ok(None),
        },
        _ => Ok(None),
    }
}

/// A line that prints.
#[tactic(auto, unfolding(crate::specs::Lines::plain_head))]
fn plain_head(
    alloc: Global,
    tags: &[Text],
    room: usize,
    tokens: &[Token],
) -> Result<Option<Head>, AllocError>
    ensures { IfOk result (λ x. x ≡ plain_head tags.now room tokens.now) }
{
    match tokens {
        [Token::Name(name), opened, Token::Quoted(text), more @ ..]
            if is_word(name.as_slice(), "print") && is_symbol(b'(', opened) => {
            printed(alloc, tags, room, text.as_slice(), more)
        }
        _ => Ok(None),
    }
}

/// What a line says, where at most so many parentheses and `not`s may be open on it.
#[tactic(auto, unfolding(crate::specs::Lines::head_of))]
pub fn head_of(
    alloc: Global,
    tags: &[Text],
    room: usize,
    tokens: &[Token],
) -> Result<Option<Head>, AllocError>
    ensures { IfOk result (λ x. x ≡ head_of tags.now room tokens.now) }
{
    match tokens {
        [Token::Keyword(keyword), more @ ..] => keyword_head(alloc, tags, room, *keyword, more),
        _ => plain_head(alloc, tags, room, tokens),
    }
}
