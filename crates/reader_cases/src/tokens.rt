//! Reads short Verilog sources as tokens and behind their directives, and prints what they are.
//!
//! A row is a statement: a word, and a text behind one blank. `␉`, `␊`, `␋`, `␌` and `␍` in the text
//! stand for the characters that they picture.
//!
//! | statement | what it prints |
//! |---|---|
//! | `tokens TEXT` | The kind, the text and the place of each token. |
//! | `number TEXT` | The width, the value, the sign, and the bits that are x and z. |
//! | `values TEXT` | The name or the characters of each name and string. |
//! | `expand LIMIT TEXT` | The texts of the tokens behind the directives, and what is left of the limit. |
//! | `places LIMIT TEXT` | The same with their places. |
//!
//! Each prints the refusal with its place where there is one. A line that begins with `#` is printed, and an empty one is
//! left out.
use case_lines::{END, is_short};
use mcy_base::Span;
use std::alloc::{AllocError, Global};
use std::io;
use vlog_expand::{ParseError, expand};
use vlog_token::{Token, TokenError, TokenKind, name_of, number, string_value, tokens};

/// The characters that a text has in the place of their pictures.
fn unpictured(alloc: Global, text: &str) -> Result<String, AllocError> {
    let mut plain = String::new(alloc);
    for part in text.chars() {
        plain.push(match part {
            '␉' => '\t',
            '␊' => '\n',
            '␋' => '\x0b',
            '␌' => '\x0c',
            '␍' => '\r',
            _ => part,
        })?;
    }
    Ok(plain)
}

/// The tokens of a text.
fn tokens_of<'a>(alloc: Global, text: &'a str) -> Result<Vec<Token<'a>>, TokenError> {
    if is_short(text) {
        tokens(alloc, 0, text)
    } else {
        Err(TokenError::Memory)
    }
}

/// A refusal at a place: line and column, or `end` for the place behind the last token.
fn tell_at<R: Print>(rt: &R, word: &str, place: Span) -> io::Result<()> {
    if place.line == 0 {
        print!(rt; "{word} end")
    } else {
        print!(rt; "{word} {}:{}", place.line, place.col)
    }
}

fn tell_no_tokens<R: Print>(rt: &R, error: TokenError) -> io::Result<()> {
    match error {
        TokenError::BadCharacter(place) => tell_at(rt, "BadCharacter", place),
        TokenError::OpenComment(place) => tell_at(rt, "OpenComment", place),
        TokenError::OpenString(place) => tell_at(rt, "OpenString", place),
        TokenError::BadNumber(place) => tell_at(rt, "BadNumber", place),
        TokenError::Memory => print!(rt; "Memory"),
    }
}

fn tell_refusal<R: Print>(rt: &R, error: ParseError) -> io::Result<()> {
    match error {
        ParseError::Unexpected(place) => tell_at(rt, "Unexpected", place),
        ParseError::Unsupported(place, feature) => {
            print!(rt; "Unsupported ")?;
            match place.line {
                0 => print!(rt; "{feature:?} end"),
                line => print!(rt; "{feature:?} {line}:{}", place.col),
            }
        }
        ParseError::UnknownMacro(place) => tell_at(rt, "UnknownMacro", place),
        ParseError::OpenCondition(place) => tell_at(rt, "OpenCondition", place),
        ParseError::TooDeep(place) => tell_at(rt, "TooDeep", place),
        ParseError::TooMany(_) => print!(rt; "TooMany Tokens"),
        ParseError::Memory => print!(rt; "Memory"),
    }
}

fn kind_word(kind: TokenKind) -> &'static str {
    match kind {
        TokenKind::Name => "name",
        TokenKind::Escaped => "escaped",
        TokenKind::System => "system",
        TokenKind::Directive => "directive",
        TokenKind::Number => "number",
        TokenKind::String => "string",
        TokenKind::Symbol => "symbol",
    }
}

fn tell_tokens<R: Print>(rt: &R, list: &[Token<'_>]) -> io::Result<()> {
    print!(rt; "tokens")?;
    for token in list {
        let place = token.span;
        let kind = kind_word(token.kind);
        print!(rt; " {kind} {} {}:{}", token.text, place.line, place.col)?;
    }
    Ok(())
}

fn tell_texts<R: Print>(rt: &R, list: &[Token<'_>]) -> io::Result<()> {
    print!(rt; "tokens")?;
    for token in list {
        print!(rt; " {}", token.text)?;
    }
    Ok(())
}

fn tell_places<R: Print>(rt: &R, list: &[Token<'_>]) -> io::Result<()> {
    print!(rt; "tokens")?;
    for token in list {
        let place = token.span;
        print!(rt; " {} {}:{}", token.text, place.line, place.col)?;
    }
    Ok(())
}

/// The number of a text.
fn tell_number<R: Print>(rt: &R, text: &str) -> io::Result<()> {
    let Some(number) = number(text) else {
        return print!(rt; "no number");
    };
    let sign = if number.is_signed {
        "signed"
    } else {
        "unsigned"
    };
    let (width, bits) = (number.value.width(), number.value.bits());
    print!(rt;
        "{width} {sign} {bits} x {} z {}",
        number.x_bits, number.z_bits
    )
}

/// The characters of a string, those that control as their pictures.
fn tell_characters<R: Print>(rt: &R, bytes: &[u8]) -> io::Result<()> {
    for byte in bytes {
        match *byte {
            b'\t' => print!(rt; "␉")?,
            b'\n' => print!(rt; "␊")?,
            other => print!(rt; "{}", char::from(other))?,
        }
    }
    Ok(())
}

/// What a name or a string stands for.
fn tell_value<R: Print + AllocGlobal>(rt: &R, token: &Token<'_>) -> io::Result<()> {
    match token.kind {
        TokenKind::Name | TokenKind::Escaped => print!(rt; "{}", name_of(token)),
        TokenKind::String => {
            let bytes = string_value(rt.alloc(), token.text)?;
            tell_characters(rt, bytes.as_slice())
        }
        _ => Ok(()),
    }
}

fn tell_values<R: Print + AllocGlobal>(rt: &R, list: &[Token<'_>]) -> io::Result<()> {
    print!(rt; "values")?;
    for token in list {
        print!(rt; " [")?;
        tell_value(rt, token)?;
        print!(rt; "]")?;
    }
    Ok(())
}

/// What stands behind the directives of the tokens, with the places or without them.
fn tell_expanded<R: Print + AllocGlobal>(
    rt: &R,
    list: &[Token<'_>],
    limit: u32,
    with_places: bool,
) -> io::Result<()> {
    let mut left = limit;
    match expand(rt.alloc(), list, END, &mut left) {
        Ok(given) if with_places => tell_places(rt, given.as_slice())?,
        Ok(given) => tell_texts(rt, given.as_slice())?,
        Err(error) => tell_refusal(rt, error)?,
    }
    print!(rt; ", left {left}")
}

/// What is asked of the tokens of a text.
#[derive(Clone, Copy)]
enum Question {
    Tokens,
    Values,
    Expanded { limit: u32, with_places: bool },
}

/// Answers for a text.
fn answer<R: Print + AllocGlobal>(rt: &R, question: Question, text: &str) -> io::Result<()> {
    let plain = unpictured(rt.alloc(), text)?;
    match tokens_of(rt.alloc(), plain.as_str()) {
        Err(error) => tell_no_tokens(rt, error),
        Ok(all) => match question {
            Question::Tokens => tell_tokens(rt, all.as_slice()),
            Question::Values => tell_values(rt, all.as_slice()),
            Question::Expanded { limit, with_places } => {
                tell_expanded(rt, all.as_slice(), limit, with_places)
            }
        },
    }
}

/// Answers a statement with a limit in front of its text.
fn answer_limited<R: Print + AllocGlobal>(rt: &R, rest: &str, with_places: bool) -> io::Result<()> {
    let (limit, text) = rest.split_once(' ').unwrap_or((rest, ""));
    let limit = limit.parse::<u32>().unwrap_or(0);
    answer(rt, Question::Expanded { limit, with_places }, text)
}

/// Carries out a statement.
pub(crate) fn carry_out<R: Print + AllocGlobal>(rt: &R, line: &str) -> io::Result<()> {
    let (verb, rest) = line.split_once(' ').unwrap_or((line, ""));
    match verb {
        "" => return Ok(()),
        "#" => return println!(rt; "{line}"),
        _ => println!(rt; "> {line}")?,
    }
    match verb {
        "tokens" => answer(rt, Question::Tokens, rest)?,
        "number" => tell_number(rt, unpictured(rt.alloc(), rest)?.as_str())?,
        "values" => answer(rt, Question::Values, rest)?,
        "expand" => answer_limited(rt, rest, false)?,
        "places" => answer_limited(rt, rest, true)?,
        _ => print!(rt; "no statement")?,
    }
    println!(rt)
}
