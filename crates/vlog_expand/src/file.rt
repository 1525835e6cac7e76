//! The directives of one file, carried out (IEEE 1364-2005, 19).
ghost use Rattle.std.specs.Prelude.{◌≡◌, ◌<◌, IfErr, IfOk, OnErr, OnOk, length};
ghost use Rattle.vlog_expand.specs.Files.{ComesBehind, IsCarriedOut, IsRefused, LeadsOn, start};
ghost use Rattle.vlog_expand.specs.Moves.{state_of};
ghost use Rattle.vlog_expand.specs.Uses.{Gives};

use crate::error::ParseError;
use crate::output::{MAX_DEPTH, Output};
use crate::reading::Reading;
use crate::word::is_shown;
use mcy_base::Span;
use std::alloc::Global;
use vlog_token::Token;

/// The tokens that are still to be read.
#[derive(Clone, Copy)]
struct Rest<'t, 'a> {
    tokens: &'t [Token<'a>],
}

/// Reads one token or one directive, if there is one.
fn read_next<'t, 'a>(
    reading: &mut Reading<'t, 'a>,
    output: &mut Output<'a>,
    rest: Rest<'t, 'a>,
    end: Span,
) -> Result<Rest<'t, 'a>, ParseError>
    ensures ok { IfOk result (λ next. LeadsOn output.old.given.items end (state_of reading.old rest.entry.tokens.now) output.old.left output.new.given.items (state_of reading.new next.tokens.now) output.new.left) }
    ensures shorter { IfOk result (λ next. 0 < length rest.entry.tokens.now → length next.tokens.now < length rest.entry.tokens.now) }
    ensures err { IfErr result (IsRefused end (state_of reading.old rest.entry.tokens.now) output.old.left) }
{
    match rest.tokens.split_first() {
        None => Ok(rest),
        Some((token, behind)) => {
            if is_shown(token) {
                output.add(&reading.macros, MAX_DEPTH, token)?;
                return Ok(Rest { tokens: behind });
            }
            let tokens = reading.carry_out(token, behind, end)?;
            Ok(Rest { tokens })
        }
    }
}

/// Reads a file to its end.
fn read_file<'t, 'a>(
    reading: &mut Reading<'t, 'a>,
    output: &mut Output<'a>,
    tokens: &'t [Token<'a>],
    end: Span,
) -> Result<(), ParseError>
    ensures ok { OnOk result (ComesBehind output.old.given.items end (state_of reading.old tokens.now) output.old.left (Gives output.new.given.items output.new.left)) }
    ensures err { IfErr result (IsRefused end (state_of reading.old tokens.now) output.old.left) }
{
    let mut rest = Rest { tokens };
    while !rest.tokens.is_empty() {
        rest = read_next(reading, output, rest, end)?;
    }
    Ok(())
}

/// Carries out the directives of one file (IEEE 1364-2005, 19), whose tokens these are in their order. Gives
/// the tokens that are left, each with its own place: that of a token of a macro is in the definition.
///
/// `end` is the place one past the file's last byte. `limit` is how many tokens may be given and uses of macros
/// replaced together. At Ok it is lowered by those. A refused call leaves it as it was.
///
/// The first fault of the file is answered, where a condition without its end is one at its beginning.
/// `Unexpected` comes where a name has to stand behind a directive and does not, at a directive in the text of
/// a macro, and at an `` `else`` or `` `endif`` that no condition has. `Unsupported` comes at a `` `define``
/// with parameters, at a use that stands more than 16 deep in uses, at an `` `include`` and at a directive that
/// is refused by its name; `UnknownMacro` at the use of a macro that is not defined there; `OpenCondition` at
/// an `` `ifdef`` or `` `ifndef`` without its end; `TooMany` at the token or use that is one more than `limit`.
pub fn expand<'a>(
    alloc: Global,
    tokens: &[Token<'a>],
    end: Span,
    limit: &mut u32,
) -> Result<Vec<Token<'a>>, ParseError>
    ensures ok { IfOk result (λ given. IsCarriedOut end tokens.now limit.old given.items limit.new) }
    ensures refused { IfErr result (IsRefused end (start tokens.now) limit.old) }
    ensures unchanged { OnErr result (limit.new ≡ limit.old) }
{
    let mut reading = Reading::new(alloc);
    let mut output = Output::new(alloc, *limit);
    read_file(&mut reading, &mut output, tokens, end)?;
    *limit = output.left;
    Ok(output.given)
}
