//! The names of a line.
ghost use Rattle.std.specs.Prelude.{◌≡◌, OnOk};
ghost use Rattle.project_lines.specs.Paths.{with_name};
ghost use Rattle.project_lines.specs.Words.{is_among};
ghost use Rattle.tag_lines.specs.Lines.{names_behind, with_token};

use crate::words::is_function;
use mcy_base::{Bytes, BytesList};
use script_lines::Token;
use std::alloc::{AllocError, Global};

fn is_among_names(word: &[u8], names: &[Bytes]) -> bool
    ensures { result ≡ is_among word.now names.now }
{
    names.iter().any(|name| name.as_slice() == word)
}

/// Adds a name, which stands there once.
#[tactic(auto, unfolding(project_lines::specs::Paths::with_name))]
fn add_name(alloc: Global, names: &mut BytesList, name: &[u8]) -> Result<(), AllocError>
    ensures { OnOk result (names.new ≡ with_name names.old name.now) }
{
    if is_among_names(name, names.as_slice()) {
        return Ok(());
    }
    names.push(Bytes::copy(alloc, name)?)
}

/// Adds the name that a token is.
fn add_token(alloc: Global, names: &mut BytesList, token: &Token) -> Result<(), AllocError>
    ensures { OnOk result (names.new ≡ with_token names.old token.now) }
{
    match token {
        Token::Name(name) if !is_function(name.as_slice()) => {
            add_name(alloc, names, name.as_slice())
        }
        _ => Ok(()),
    }
}

/// Adds the names of a line, each once.
#[tactic(auto, unfolding(crate::specs::Lines::names_behind))]
pub fn add_names(alloc: Global, names: &mut BytesList, tokens: &[Token]) -> Result<(), AllocError>
    ensures { OnOk result (names.new ≡ names_behind names.old tokens.now) }
{
    for token in tokens {
        add_token(alloc, names, token)?;
    }
    Ok(())
}
