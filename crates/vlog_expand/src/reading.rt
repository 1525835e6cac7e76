//! The directives of a file, carried out one after the other.
//!
//! `macros` are the macros defined at the place that is read, and `conditions` says for each condition that is
//! open there, from the outermost on, whether its `` `else`` may come. Each call takes the tokens behind a
//! directive, and gives those that are read next.
ghost use Rattle.std.specs.Prelude.{◌≡◌, ◌≤◌, length, true, [], ◌∷◌, IfOk, IfErr};
ghost use Rattle.vlog_expand.specs.Definitions.{definitions_of, no_macros};
ghost use Rattle.vlog_expand.specs.Moves.{IsNameFault, IsStop, Passes, condition_move, define_move, else_move, endif_move, fault_in, has_parameters, innermost, move_by, other_part, state_of, text_fault, undef_move};
ghost use Rattle.vlog_expand.specs.Words.{is_name, word_of};

use crate::conditions::{after_part, is_closed};
use crate::error::ParseError;
use crate::lines::rest_of_line;
use crate::macros::Macros;
use crate::word::{Word, is_macro_name, word_of};
use mcy_base::Span;
use std::alloc::{AllocError, Global};
use vlog_syntax::Feature;
use vlog_token::{Token, TokenKind};

/// What the directives so far have left.
#[derive(Drop)]
pub struct Reading<'t, 'a> {
    pub macros: Macros<'t, 'a>,
    pub conditions: Vec<bool>,
}

/// The name that the tokens begin with, and the tokens behind it.
fn split_name<'t, 'a>(
    tokens: &'t [Token<'a>],
    end: Span,
) -> Result<(&'t Token<'a>, &'t [Token<'a>]), ParseError>
    ensures ok { IfOk result (λ split. tokens.now ≡ split.0.now ∷ split.1.now) }
    ensures ok_name { IfOk result (λ split. is_name split.0.now.kind ≡ true) }
    ensures err { IfErr result (IsNameFault end tokens.now) }
{
    match tokens.split_first() {
        None => Err(ParseError::Unexpected(end)),
        Some((first, _)) if first.kind != TokenKind::Name => Err(ParseError::Unexpected(
            first.span,
        )),
        Some(split) => Ok(split),
    }
}

/// Why a token may not stand in the text of a macro, if it may not.
fn text_fault(token: &Token<'_>) -> Option<ParseError>
    ensures { result ≡ text_fault (word_of token.now) token.now.span }
{
    match word_of(token) {
        Word::Plain | Word::Use => None,
        Word::Include => Some(ParseError::Unsupported(token.span, Feature::Include)),
        Word::Elsif | Word::Refused => {
            Some(ParseError::Unsupported(token.span, Feature::DirectiveName))
        }
        _ => Some(ParseError::Unexpected(token.span)),
    }
}

/// Why the first token may not stand in the text of a macro that may not.
fn fault_in(text: &[Token<'_>]) -> Option<ParseError>
    ensures { result ≡ fault_in text.now }
{
    for token in text {
        let fault = text_fault(token);
        if fault.is_some() {
            return fault;
        }
    }
    None
}

/// Whether a macro's name has a `(` right after it.
#[tactic(auto, unfolding(crate::specs::Moves::has_parameters))]
fn has_parameters(name: &Token<'_>, behind: &[Token<'_>]) -> bool
    ensures { result ≡ has_parameters name.now behind.now }
{
    match behind.first() {
        None => false,
        Some(next) => {
            next.text.as_bytes() == "(".as_bytes()
                && next.span.line == name.span.line
                && next.span.col >= name.span.col
                && (next.span.col - name.span.col) as usize == name.text.len()
        }
    }
}

impl<'t, 'a> Reading<'t, 'a> {
    /// Nothing was read yet.
    pub fn new(alloc: Global) -> Reading<'t, 'a>
        ensures { state_of result [] ≡ record { macros = no_macros; conditions = []; rest = [] } }
    {
        Reading {
            macros: Macros::new(alloc),
            conditions: Vec::new(alloc),
        }
    }

    /// Carries a `` `define`` out.
    fn define(
        &mut self,
        at: &Token<'a>,
        behind: &'t [Token<'a>],
        end: Span,
    ) -> Result<&'t [Token<'a>], ParseError>
        ensures ok { IfOk result (λ rest. define_move end (definitions_of self.old.macros) self.old.conditions.items at.now behind.now ≡ Passes (state_of self.new rest.now)) }
        ensures shorter { IfOk result (λ rest. length rest.now ≤ length behind.now) }
        ensures err { IfErr result (IsStop (define_move end (definitions_of self.old.macros) self.old.conditions.items at.now behind.now)) }
    {
        let Some((name, tokens)) = behind.split_first() else {
            return Err(ParseError::Unexpected(end));
        };
        if !is_macro_name(name) || name.span.line != at.span.line {
            return Err(ParseError::Unexpected(name.span));
        }
        if has_parameters(name, tokens) {
            return Err(ParseError::Unsupported(at.span, Feature::MacroForm));
        }
        let (text, rest) = rest_of_line(at.span.line, tokens);
        if let Some(fault) = fault_in(text) {
            return Err(fault);
        }
        self.macros.define(name.text.as_bytes(), text)?;
        Ok(rest)
    }

    /// Carries an `` `undef`` out.
    fn undefine(
        &mut self,
        behind: &'t [Token<'a>],
        end: Span,
    ) -> Result<&'t [Token<'a>], ParseError>
        ensures ok { IfOk result (λ rest. undef_move end (definitions_of self.old.macros) self.old.conditions.items behind.now ≡ Passes (state_of self.new rest.now)) }
        ensures shorter { IfOk result (λ rest. length rest.now ≤ length behind.now) }
        ensures err { IfErr result (IsStop (undef_move end (definitions_of self.old.macros) self.old.conditions.items behind.now)) }
    {
        let (name, rest) = split_name(behind, end)?;
        self.macros.undefine(name.text.as_bytes());
        Ok(rest)
    }

    /// Carries an `` `ifdef`` out, or where `wanted` is false an `` `ifndef``.
    fn begin_condition(
        &mut self,
        at: &Token<'a>,
        wanted: bool,
        behind: &'t [Token<'a>],
        end: Span,
    ) -> Result<&'t [Token<'a>], ParseError>
        ensures ok { IfOk result (λ rest. condition_move end (definitions_of self.old.macros) self.old.conditions.items wanted at.now behind.now ≡ Passes (state_of self.new rest.now)) }
        ensures shorter { IfOk result (λ rest. length rest.now ≤ length behind.now) }
        ensures err { IfErr result (IsStop (condition_move end (definitions_of self.old.macros) self.old.conditions.items wanted at.now behind.now)) }
    {
        if self.conditions.is_empty() && !is_closed(behind) {
            return Err(ParseError::OpenCondition(at.span));
        }
        let (name, part) = split_name(behind, end)?;
        if self.macros.text(name.text.as_bytes()).is_some() == wanted {
            self.conditions.push(true).map_err(AllocError::from)?;
            return Ok(part);
        }
        self.begin_other_part(after_part(part))
    }

    /// Goes on at the word that ends a part which is not taken.
    fn begin_other_part(&mut self, tokens: &'t [Token<'a>]) -> Result<&'t [Token<'a>], ParseError>
        ensures ok { IfOk result (λ rest. other_part (definitions_of self.old.macros) self.old.conditions.items tokens.now ≡ state_of self.new rest.now) }
        ensures shorter { IfOk result (λ rest. length rest.now ≤ length tokens.now) }
        ensures err { IfErr result (λ e. e ≡ ParseError.Memory) }
    {
        match tokens.split_first() {
            None => Ok(tokens),
            Some((word, rest)) => match word_of(word) {
                Word::Else => {
                    self.conditions.push(false).map_err(AllocError::from)?;
                    Ok(rest)
                }
                Word::Endif => Ok(rest),
                _ => {
                    self.conditions.push(false).map_err(AllocError::from)?;
                    Ok(tokens)
                }
            },
        }
    }

    /// Carries an `` `else`` out, behind a part that was taken.
    fn skip_else(
        &mut self,
        at: &Token<'a>,
        behind: &'t [Token<'a>],
    ) -> Result<&'t [Token<'a>], ParseError>
        ensures ok { IfOk result (λ rest. else_move (definitions_of self.old.macros) self.old.conditions.items (innermost self.old.conditions.items) at.now behind.now ≡ Passes (state_of self.new rest.now)) }
        ensures shorter { IfOk result (λ rest. length rest.now ≤ length behind.now) }
        ensures err { IfErr result (IsStop (else_move (definitions_of self.old.macros) self.old.conditions.items (innermost self.old.conditions.items) at.now behind.now)) }
    {
        if self.conditions.pop() != Some(true) {
            return Err(ParseError::Unexpected(at.span));
        }
        let tokens = after_part(behind);
        match tokens.split_first() {
            Some((word, rest)) if word_of(word) == Word::Endif => Ok(rest),
            _ => {
                self.conditions.push(false).map_err(AllocError::from)?;
                Ok(tokens)
            }
        }
    }

    /// Carries an `` `endif`` out.
    fn end_condition(
        &mut self,
        at: &Token<'a>,
        behind: &'t [Token<'a>],
    ) -> Result<&'t [Token<'a>], ParseError>
        ensures ok { IfOk result (λ rest. endif_move (definitions_of self.old.macros) self.old.conditions.items (innermost self.old.conditions.items) at.now behind.now ≡ Passes (state_of self.new rest.now)) }
        ensures shorter { IfOk result (λ rest. length rest.now ≤ length behind.now) }
        ensures err { IfErr result (IsStop (endif_move (definitions_of self.old.macros) self.old.conditions.items (innermost self.old.conditions.items) at.now behind.now)) }
    {
        match self.conditions.pop() {
            None => Err(ParseError::Unexpected(at.span)),
            Some(_) => Ok(behind),
        }
    }

    /// Carries a directive out.
    pub fn carry_out(
        &mut self,
        at: &Token<'a>,
        behind: &'t [Token<'a>],
        end: Span,
    ) -> Result<&'t [Token<'a>], ParseError>
        ensures ok { IfOk result (λ rest. move_by (word_of at.now) end (definitions_of self.old.macros) self.old.conditions.items at.now behind.now ≡ Passes (state_of self.new rest.now)) }
        ensures shorter { IfOk result (λ rest. length rest.now ≤ length behind.now) }
        ensures err { IfErr result (IsStop (move_by (word_of at.now) end (definitions_of self.old.macros) self.old.conditions.items at.now behind.now)) }
    {
        match word_of(at) {
            Word::Plain | Word::Use => Ok(behind),
            Word::Define => self.define(at, behind, end),
            Word::Undef => self.undefine(behind, end),
            Word::Ifdef => self.begin_condition(at, true, behind, end),
            Word::Ifndef => self.begin_condition(at, false, behind, end),
            Word::Else => self.skip_else(at, behind),
            Word::Endif => self.end_condition(at, behind),
            Word::Dropped => Ok(rest_of_line(at.span.line, behind).1),
            Word::Include => Err(ParseError::Unsupported(at.span, Feature::Include)),
            Word::Elsif | Word::Refused => {
                Err(ParseError::Unsupported(at.span, Feature::DirectiveName))
            }
        }
    }
}
