//! What a line of a script says: its indentation, and its tokens with blanks between them.
use crate::texts::{push_bytes, rows_of};
use anyhow::Result;
use script_lines::{Keyword, Row, Token};
use std::alloc::{AllocError, Global};

/// Adds bytes behind a mark.
fn push_marked(text: &mut String, mark: &str, bytes: &[u8]) -> Result<(), AllocError> {
    text.push_str(mark)?;
    push_bytes(text, bytes)
}

/// Adds digits and decimal places.
fn push_decimal(text: &mut String, digits: &[u8], places: &[u8]) -> Result<(), AllocError> {
    push_marked(text, " d:", digits)?;
    push_marked(text, ".", places)
}

/// Adds a byte behind a blank.
fn push_symbol(text: &mut String, byte: u8) -> Result<(), AllocError> {
    text.push(' ')?;
    text.push(char::from(byte))
}

/// Adds a keyword behind its mark.
fn push_keyword(alloc: Global, text: &mut String, keyword: Keyword) -> Result<(), AllocError> {
    let name = format!(in alloc; " k:{keyword:?}")?;
    text.push_str(name.as_str())
}

/// Adds a token behind a blank: `k:` stands before a keyword, `n:` before a name, `d:` before digits, `t:` before a text.
fn push_token(alloc: Global, text: &mut String, token: &Token) -> Result<(), AllocError> {
    match token {
        Token::Keyword(keyword) => push_keyword(alloc, text, *keyword),
        Token::Name(name) => push_marked(text, " n:", name.as_slice()),
        Token::Digits(digits) => push_marked(text, " d:", digits.as_slice()),
        Token::Decimal(digits, places) => push_decimal(text, digits.as_slice(), places.as_slice()),
        Token::Quoted(quoted) => push_marked(text, " t:", quoted.as_slice()),
        Token::Equal => text.push_str(" =="),
        Token::NotEqual => text.push_str(" !="),
        Token::LessEqual => text.push_str(" <="),
        Token::GreaterEqual => text.push_str(" >="),
        Token::Symbol(byte) => push_symbol(text, *byte),
    }
}

/// Adds the tokens, or that there are none.
fn push_tokens(alloc: Global, text: &mut String, row: &Row) -> Result<(), AllocError> {
    let Some(tokens) = &row.tokens else {
        return text.push_str(" bad");
    };
    for token in tokens.as_slice() {
        push_token(alloc, text, token)?;
    }
    Ok(())
}

/// The indentation of a row.
fn indent_of(alloc: Global, row: &Row) -> Result<String, AllocError> {
    match row.indent {
        Some(indent) => format!(in alloc; "{indent}:"),
        None => format!(in alloc; "tab:"),
    }
}

/// What a row says.
fn told(alloc: Global, row: &Row) -> Result<String, AllocError> {
    let mut text = indent_of(alloc, row)?;
    push_tokens(alloc, &mut text, row)?;
    Ok(text)
}

/// Prints what a row says.
fn tell_row<R: Print + AllocGlobal>(rt: &R, row: &Row) -> Result<()> {
    let text = told(rt.alloc(), row)?;
    Ok(println!(rt; "{}", text.as_str())?)
}

/// Prints what a line says.
pub(crate) fn tell_tokens<R: Print + AllocGlobal>(rt: &R, text: &str) -> Result<()> {
    let rows = rows_of(rt.alloc(), text)?;
    match rows.as_slice() {
        [row, ..] => tell_row(rt, row),
        [] => Ok(println!(rt; "nothing")?),
    }
}
