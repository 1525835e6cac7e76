//! The tokens of files behind their directives.
//!
//! All files share one limit on tokens and uses of macros: what one leaves of it is the limit of the next.
ghost use Rattle.std.specs.Prelude.{◌≡◌, ◌⊎◌, ◌<◌, ◌≤◌, ◌^◌, ◌++◌, ◌∷◌, [], length, map, All, IfErr, IfOk, OnOk};
ghost use Rattle.std.specs.Str.{IsUtf8};
ghost use Rattle.vlog_expand.specs.Uses.{Gives};
ghost use Rattle.seen_tokens.specs.Bare.{bare};
ghost use Rattle.source_trees.specs.Files.{max_tokens, AreGiven, ComesTo};
ghost use Rattle.source_trees.specs.Faults.{IsFileFault, IsUngiven};
ghost use Rattle.source_trees.specs.declared.error.ReadError.TheVariants.{Memory};

use crate::error::ReadError;
use crate::place::end_of;
use mcy_base::SourceFile;
use std::alloc::{AllocError, Global};
use vlog_expand::expand;
use vlog_token::{Token, tokens};

/// How many tokens and uses of macros all files together may have.
const MAX_TOKENS: u32 = 2_000_000;

/// The text that the bytes are.
fn text_of(bytes: &[u8]) -> &str
    requires { IsUtf8 bytes.now }
    ensures { result.now ≡ bytes.now }
{
    str::from_utf8(bytes).unwrap()
}

/// The tokens of the file with this number behind its directives.
fn give_file<'a>(
    alloc: Global,
    number: u16,
    bytes: &'a [u8],
    limit: &mut u32,
) -> Result<Vec<Token<'a>>, ReadError>
    requires short { length bytes.now < 2 ^ 31 }
    requires text { IsUtf8 bytes.now }
    ensures given { IfOk result (λ given. ComesTo number bytes.now limit.old (Gives (map bare given.items) limit.new)) }
    ensures refused { IfErr result (λ e. (e ≡ Memory) ⊎ IsFileFault number bytes.now limit.old e) }
{
    let all = match tokens(alloc, number, text_of(bytes)) {
        Ok(all) => all,
        Err(error) => return Err(ReadError::of_token(error)),
    };
    match expand(alloc, &all, end_of(number, bytes), limit) {
        Ok(given) => Ok(given),
        Err(error) => Err(ReadError::of_parse(error)),
    }
}

/// Adds the tokens of a file behind those of the others.
fn add<'a>(given: &mut Vec<Vec<Token<'a>>>, tokens: Vec<Token<'a>>) -> Result<(), AllocError>
    ensures { OnOk result (given.new.items ≡ given.old.items ++ tokens.entry ∷ []) }
{
    given.push(tokens)?;
    Ok(())
}

/// The tokens of the files, one file after the other.
pub(crate) fn give_files<'a>(
    alloc: Global,
    files: &'a [SourceFile],
) -> Result<Vec<Vec<Token<'a>>>, ReadError>
    requires few { length files.now ≤ 65536 }
    requires short { All (λ f. length f.bytes < 2 ^ 31) files.now }
    requires texts { All (λ f. IsUtf8 f.bytes) files.now }
    ensures given { IfOk result (λ given. AreGiven 0 files.now max_tokens (map (λ ts. map bare ts.items) given.items)) }
    ensures refused { IfErr result (λ e. (e ≡ Memory) ⊎ IsUngiven 0 files.now max_tokens e) }
{
    let mut given = Vec::new(alloc);
    let mut limit = MAX_TOKENS;
    for (number, file) in files.iter().enumerate() {
        let one = give_file(alloc, number as u16, file.bytes.as_slice(), &mut limit)?;
        add(&mut given, one)?;
    }
    Ok(given)
}
