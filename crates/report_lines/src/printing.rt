//! What a line prints: the formats of its text, and its values.
ghost use Rattle.std.specs.Prelude.{◌≡◌, IfOk, map};
ghost use Rattle.report_lines.specs.Grammar.{all_of, inner, shares_at};
ghost use Rattle.report_lines.specs.Lines.{filled, fitting, is_tuple, printed, value_in, values};
ghost use Rattle.report_lines.specs.declared.parting.Level.TheVariants as level;
ghost use Rattle.report_lines.specs.declared.format.Format.TheVariants.{Byte};

use crate::expr::Expr;
use crate::format::{Format, formats, value_count};
use crate::head::Head;
use crate::parting::{Level, behind};
use crate::reading::{expression, inner};
use mcy_base::{Items, Text};
use script_lines::{Token, before, front_len, is_symbol};
use std::alloc::{AllocError, Global};
use tag_lines::is_last;
use tree_parts::Listed;

/// The bytes of a text as they stand.
fn plain(alloc: Global, text: &[u8]) -> Result<Items<Format>, AllocError>
    ensures { IfOk result (λ all. all ≡ map Byte text.now) }
{
    let mut formats = Items::from_vec(Vec::new(alloc));
    for byte in text {
        formats.push(Format::Byte(*byte))?;
    }
    Ok(formats)
}

/// Whether tokens are several values in parentheses.
fn is_tuple(tokens: &[Token]) -> bool
    ensures { result ≡ is_tuple tokens.now }
{
    match tokens {
        [token, more @ ..] => {
            if !is_symbol(b'(', token) || !is_last(b')', more) {
                return false;
            }
            let within = &more[..more.len() - 1];
            front_len(Level::Comma, within) < within.len()
        }
        [] => false,
    }
}

/// What stands behind a parenthesis and each comma.
fn all_values(
    alloc: Global,
    tags: &[Text],
    room: usize,
    tokens: &[Token],
) -> Result<Option<Listed<Expr>>, AllocError>
    ensures { IfOk result (λ xs. xs ≡ all_of (value_in (inner tags.now room)) (shares_at level.Comma tokens.now)) }
{
    let mut values = Listed::from_vec(Vec::new(alloc));
    let mut rest = tokens;
    'signs: while let [_, more @ ..] = rest {
        let len = front_len(Level::Comma, more);
        let front = before(len, more);
        let Some(value) = inner(alloc, tags, room, front)? else {
            return Ok(None);
        };
        values.push(value)?;
        rest = behind(len, more);
    }
    Ok(Some(values))
}

/// The values behind a percent sign.
#[tactic(auto, unfolding(crate::specs::Lines::values))]
fn values(
    alloc: Global,
    tags: &[Text],
    room: usize,
    tokens: &[Token],
) -> Result<Option<Listed<Expr>>, AllocError>
    ensures { IfOk result (λ xs. xs ≡ values tags.now room tokens.now) }
{
    if is_tuple(tokens) {
        return all_values(alloc, tags, room, &tokens[..tokens.len() - 1]);
    }
    let Some(value) = expression(alloc, tags, room, tokens)? else {
        return Ok(None);
    };
    let mut values = Listed::from_vec(Vec::new(alloc));
    values.push(value)?;
    Ok(Some(values))
}

/// Formats with as many values as they take.
fn fitting(formats: Option<Items<Format>>, values: Option<Listed<Expr>>) -> Option<Head>
    ensures { result ≡ fitting formats values }
{
    let formats = formats?;
    let values = values?;
    if value_count(formats.as_slice()) == values.as_slice().len() {
        Some(Head::Print(formats, values))
    } else {
        None
    }
}

/// A text with values.
#[tactic(auto, unfolding(crate::specs::Lines::filled))]
fn filled(
    alloc: Global,
    tags: &[Text],
    room: usize,
    text: &[u8],
    tokens: &[Token],
) -> Result<Option<Head>, AllocError>
    ensures { IfOk result (λ x. x ≡ filled tags.now room text.now tokens.now) }
{
    let formats = formats(alloc, text)?;
    let values = values(alloc, tags, room, tokens)?;
    Ok(fitting(formats, values))
}

/// What a line prints that has these tokens behind its text.
#[tactic(auto, unfolding(crate::specs::Lines::printed, tag_lines::specs::Grammar::before_symbol))]
pub fn printed(
    alloc: Global,
    tags: &[Text],
    room: usize,
    text: &[u8],
    tokens: &[Token],
) -> Result<Option<Head>, AllocError>
    ensures { IfOk result (λ x. x ≡ printed tags.now room text.now tokens.now) }
{
    match tokens {
        [] => Ok(None),
        [token] => {
            if !is_symbol(b')', token) {
                return Ok(None);
            }
            let formats = plain(alloc, text)?;
            Ok(Some(Head::Print(formats, Listed::from_vec(Vec::new(alloc)))))
        }
        [token, more @ ..] => {
            if !is_symbol(b'%', token) || !is_last(b')', more) {
                return Ok(None);
            }
            filled(alloc, tags, room, text, &more[..more.len() - 1])
        }
    }
}
