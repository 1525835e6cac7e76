//! Tokens as the grammar sees them.
//!
//! A `(` and a `*` without a gap begin an attribute, but not behind `@`, and a `*` and a `)` without a gap end it.
ghost use Rattle.std.specs.Prelude.{◌≡◌, IfOk};
ghost use Rattle.vlog_parse.specs.Classes as spec;

use crate::words::{symbol_class, system_class, word_class};
use mcy_base::Span;
use std::alloc::{AllocError, Global};
use vlog_grammar::{Class, Token as Classed};
use vlog_token::{Token, TokenKind};

/// Where a token stands.
#[derive(Clone, Copy, Debug, PartialEq, Eq)]
pub enum Context {
    Outside,
    /// Behind a `@`.
    At,
    /// Behind a `(` at this place that stands behind no `@`.
    Open(Span),
    /// In an attribute.
    Attribute,
    /// In an attribute, behind a `*` at this place.
    Star(Span),
}

/// Whether the second place is the one behind the first.
fn is_next(s: Span, t: Span) -> bool
    ensures { result ≡ spec.is_next s t }
{
    t.file == s.file && t.line == s.line && t.col.checked_sub(1) == Some(s.col)
}

/// The class of a token outside of attributes.
#[tactic(auto, unfolding(crate::specs::Classes::token_class))]
fn token_class(token: Token<'_>) -> Class
    ensures { result ≡ spec.token_class token.entry }
{
    match token.kind {
        TokenKind::Name => word_class(token.text),
        TokenKind::Escaped => Class::Name,
        TokenKind::System => system_class(token.text),
        TokenKind::Directive => Class::Other,
        TokenKind::Number => Class::Number,
        TokenKind::String => Class::String,
        TokenKind::Symbol => symbol_class(token.text),
    }
}

/// Where the token behind one of this class stands.
#[tactic(auto, unfolding(crate::specs::Classes::behind))]
fn behind(context: Context, class: Class, span: Span) -> Context
    ensures { result ≡ spec.behind context class span }
{
    match (context, class) {
        (_, Class::At) => Context::At,
        (Context::At, Class::OpenParen) => Context::Outside,
        (_, Class::OpenParen) => Context::Open(span),
        _ => Context::Outside,
    }
}

/// Where the token behind one of an attribute stands.
#[tactic(auto, unfolding(crate::specs::Classes::behind_text))]
fn behind_text(class: Class, span: Span) -> Context
    ensures { result ≡ spec.behind_text class span }
{
    match class {
        Class::Star => Context::Star(span),
        _ => Context::Attribute,
    }
}

/// Whether an attribute begins with the `(` before and this token.
#[tactic(auto, unfolding(crate::specs::Classes::is_begun))]
fn is_begun(context: Context, class: Class, span: Span) -> bool
    ensures { result ≡ spec.is_begun context class span }
{
    match (context, class) {
        (Context::Open(open), Class::Star) => is_next(open, span),
        _ => false,
    }
}

/// Whether an attribute ends with the `*` before and this token.
#[tactic(auto, unfolding(crate::specs::Classes::is_ended))]
fn is_ended(context: Context, class: Class, span: Span) -> bool
    ensures { result ≡ spec.is_ended context class span }
{
    match (context, class) {
        (Context::Star(star), Class::CloseParen) => is_next(star, span),
        _ => false,
    }
}

/// Whether the token stands in an attribute.
#[tactic(auto, unfolding(crate::specs::Classes::is_inside))]
fn is_inside(context: Context) -> bool
    ensures { result ≡ spec.is_inside context }
{
    match context {
        Context::Attribute | Context::Star(_) => true,
        _ => false,
    }
}

/// The class of a token, and where the token behind it stands.
fn classed(context: Context, token: Token<'_>) -> (Class, Context)
    ensures { result ≡ spec.classed context token.entry }
{
    let class = token_class(token);
    if is_begun(context, class, token.span) {
        (Class::AttributeStar, Context::Attribute)
    } else if is_ended(context, class, token.span) {
        (Class::AttributeEnd, Context::Outside)
    } else if is_inside(context) {
        (Class::AttributeText, behind_text(class, token.span))
    } else {
        (class, behind(context, class, token.span))
    }
}

/// The tokens as the grammar sees them.
pub fn classes(alloc: Global, tokens: &[Token<'_>]) -> Result<Vec<Classed>, AllocError>
    ensures { IfOk result (λ list. list.items ≡ spec.classes tokens.now) }
{
    let mut list = Vec::new(alloc);
    let mut context = Context::Outside;
    for (at, token) in tokens.iter().enumerate() {
        let (class, next) = classed(context, *token);
        list.push(Classed { class, at })?;
        context = next;
    }
    Ok(list)
}
