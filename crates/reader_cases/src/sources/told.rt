//! What is printed of modules and of faults.
use mcy_base::Span;
use source_trees::ReadError;
use std::io;
use vlog_parse::ParseError;
use vlog_syntax::Module;
use vlog_token::TokenError;

/// A word at a place.
fn tell_at<R: Print>(rt: &R, word: &str, place: Span) -> io::Result<()> {
    print!(rt; "{word} {}:{}:{}", place.file, place.line, place.col)
}

/// The names of modules, each with its place.
pub(crate) fn tell_modules<R: Print>(rt: &R, modules: &[Module]) -> io::Result<()> {
    print!(rt; "modules")?;
    for module in modules {
        print!(rt; " ")?;
        tell_at(rt, module.name.as_str(), module.span)?;
    }
    Ok(())
}

fn tell_token_error<R: Print>(rt: &R, error: TokenError) -> io::Result<()> {
    match error {
        TokenError::BadCharacter(place) => tell_at(rt, "BadCharacter", place),
        TokenError::OpenComment(place) => tell_at(rt, "OpenComment", place),
        TokenError::OpenString(place) => tell_at(rt, "OpenString", place),
        TokenError::BadNumber(place) => tell_at(rt, "BadNumber", place),
        TokenError::Memory => print!(rt; "Memory"),
    }
}

fn tell_parse_error<R: Print>(rt: &R, error: ParseError) -> io::Result<()> {
    match error {
        ParseError::Unexpected(place) => tell_at(rt, "Unexpected", place),
        ParseError::Unsupported(place, feature) => {
            tell_at(rt, "Unsupported", place)?;
            print!(rt; " {feature:?}")
        }
        ParseError::UnknownMacro(place) => tell_at(rt, "UnknownMacro", place),
        ParseError::OpenCondition(place) => tell_at(rt, "OpenCondition", place),
        ParseError::TooDeep(place) => tell_at(rt, "TooDeep", place),
        ParseError::TooMany(kind) => print!(rt; "TooMany {kind:?}"),
        ParseError::Memory => print!(rt; "Memory"),
    }
}

/// Why there are no modules.
pub(crate) fn tell_error<R: Print>(rt: &R, error: ReadError) -> io::Result<()> {
    match error {
        ReadError::NotUtf8 { file, len } => print!(rt; "NotUtf8 {file} {len}"),
        ReadError::Token(error) => tell_token_error(rt, error),
        ReadError::Parse(error) => tell_parse_error(rt, error),
        ReadError::Memory => print!(rt; "Memory"),
    }
}
