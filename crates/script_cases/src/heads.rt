//! What a line of a tag script says by itself, in parentheses, operators first. The tests are `t` and `u`, the tags `X` and `Y`, and
//! four parentheses and `not`s may be open.
use crate::exprs::{push_expr, push_place};
use crate::texts::{rows_of, texts};
use anyhow::Result;
use mcy_base::BytesList;
use script_lines::{Row, Token};
use std::alloc::{AllocError, Global};
use tag_lines::{Expr, Head, Words, add_names, head_of};

/// Adds an expression in parentheses behind a word.
fn push_with(alloc: Global, text: &mut String, word: &str, expr: &Expr) -> Result<(), AllocError> {
    text.push_str(word)?;
    push_expr(alloc, text, expr)?;
    text.push(')')
}

/// Adds what a line says.
fn push_head(alloc: Global, text: &mut String, head: &Head) -> Result<(), AllocError> {
    match head {
        Head::Assign(place, value) => {
            text.push_str("(set")?;
            push_place(alloc, text, 'n', *place)?;
            push_with(alloc, text, "", value)
        }
        Head::Tag(tag) => {
            text.push_str("(tag")?;
            push_place(alloc, text, 'g', *tag)?;
            text.push(')')
        }
        Head::Assert(condition) => push_with(alloc, text, "(assert", condition),
        Head::Pass => text.push_str("pass"),
        Head::If(condition) => push_with(alloc, text, "(if", condition),
        Head::Elif(condition) => push_with(alloc, text, "(elif", condition),
        Head::Else => text.push_str("else"),
    }
}

/// Adds what tokens say with these words.
fn push_told(
    alloc: Global,
    text: &mut String,
    words: &Words<'_>,
    tokens: &[Token],
) -> Result<(), AllocError> {
    match head_of(alloc, words, 4, tokens)? {
        Some(head) => push_head(alloc, text, &head),
        None => text.push_str("bad"),
    }
}

/// What tokens say with these words.
fn told(alloc: Global, words: &Words<'_>, tokens: &[Token]) -> Result<String, AllocError> {
    let mut text = String::new(alloc);
    push_told(alloc, &mut text, words, tokens)?;
    Ok(text)
}

/// The names that tokens give a value.
fn names_of(alloc: Global, tokens: &[Token]) -> Result<BytesList, AllocError> {
    let mut names = BytesList::from_vec(Vec::new(alloc));
    add_names(alloc, &mut names, tokens)?;
    Ok(names)
}

/// What tokens say.
fn said(alloc: Global, tokens: &[Token]) -> Result<String, AllocError> {
    let tests = texts(alloc, &["t", "u"])?;
    let tags = texts(alloc, &["X", "Y"])?;
    let names = names_of(alloc, tokens)?;
    let words = Words {
        tests: tests.as_slice(),
        tags: tags.as_slice(),
        names: names.as_slice(),
    };
    told(alloc, &words, tokens)
}

/// Prints what tokens say.
fn tell_said<R: Print + AllocGlobal>(rt: &R, tokens: &[Token]) -> Result<()> {
    let text = said(rt.alloc(), tokens)?;
    Ok(println!(rt; "{}", text.as_str())?)
}

/// Prints what a row says.
fn tell_row<R: Print + AllocGlobal>(rt: &R, row: &Row) -> Result<()> {
    match &row.tokens {
        Some(tokens) => tell_said(rt, tokens.as_slice()),
        None => Ok(println!(rt; "bad")?),
    }
}

/// Prints what a line says.
pub(crate) fn tell_head<R: Print + AllocGlobal>(rt: &R, text: &str) -> Result<()> {
    let rows = rows_of(rt.alloc(), text)?;
    match rows.as_slice() {
        [row, ..] => tell_row(rt, row),
        [] => Ok(println!(rt; "nothing")?),
    }
}
