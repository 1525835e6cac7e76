//! A source cut into its tokens.
//!
//! A source is blanks, comments and tokens, one after the other. One at a time is cut off the front of what is left,
//! and the place moves on over its bytes.
ghost use Rattle.std.specs.Prelude.{◌≡◌, ◌<◌, ◌^◌, ◌++◌, length, map, IfErr, IfOk, MatchResult, OnOk};
ghost use Rattle.vlog_token.specs.Reading.{error_of, IsCutOf, IsFaultOf, tokens_in};
ghost use Rattle.vlog_token.specs.Sources.{AreTokensOf, IsRefusal, seen};

use crate::part::{Fault, part_at};
use crate::place::moved;
use crate::token::{Token, TokenError, TokenKind};
use mcy_base::Span;
use std::alloc::{AllocError, Global};

/// The tokens of a source, in order, each a slice of it.
///
/// An error comes at the first byte of what is no blank, no comment and no token.
pub fn tokens<'a>(alloc: Global, file: u16, text: &'a str) -> Result<Vec<Token<'a>>, TokenError>
    requires { length text.now < 2 ^ 31 }
    ensures tokens { IfOk result (λ v. AreTokensOf file text.now (map seen v.items)) }
    ensures refusal { IfErr result (IsRefusal file text.now) }
{
    let mut tokens = Vec::new(alloc);
    let mut span = Span {
        file,
        line: 1,
        col: 1,
    };
    let mut rest = text;
    while !rest.is_empty() {
        let cut = match cut_at(rest) {
            Ok(cut) => cut,
            Err(fault) => return Err(error_at(fault, span)),
        };
        add_token(&mut tokens, cut, span)?;
        span = moved(span, cut.text.as_bytes());
        rest = cut.rest;
    }
    Ok(tokens)
}

/// What is cut off the front of a text: its kind where it is a token, its text, and what is left.
#[derive(Clone, Copy, Debug)]
struct Cut<'a> {
    kind: Option<TokenKind>,
    text: &'a str,
    rest: &'a str,
}

fn cut_at<'a>(text: &'a str) -> Result<Cut<'a>, Fault>
    requires { 0 < length text.now }
    ensures { MatchResult result (IsCutOf text.now) (IsFaultOf text.now) }
{
    let part = match part_at(text.as_bytes()) {
        Ok(part) => part,
        Err(fault) => return Err(fault),
    };
    let (front, rest) = text.split_at(part.len);
    Ok(Cut {
        kind: part.kind,
        text: front,
        rest,
    })
}

/// Adds what was cut off, where it is a token.
fn add_token<'a>(tokens: &mut Vec<Token<'a>>, cut: Cut<'a>, span: Span) -> Result<(), AllocError>
    ensures { OnOk result (map seen tokens.new.items ≡ map seen tokens.old.items ++ tokens_in cut.entry.kind cut.entry.text.now span) }
{
    if let Some(kind) = cut.kind {
        tokens.push(Token {
            kind,
            text: cut.text,
            span,
        })?;
    }
    Ok(())
}

fn error_at(fault: Fault, span: Span) -> TokenError
    ensures { result ≡ error_of fault span }
{
    match fault {
        Fault::BadCharacter => TokenError::BadCharacter(span),
        Fault::OpenComment => TokenError::OpenComment(span),
        Fault::OpenString => TokenError::OpenString(span),
        Fault::BadNumber => TokenError::BadNumber(span),
    }
}
