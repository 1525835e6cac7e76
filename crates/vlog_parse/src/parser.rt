//! From the tokens of a source to its modules.
ghost use Rattle.std.specs.Prelude.{◌≡◌, ◌≤◌, All, List, IfOk, IfErr};
ghost use Rattle.mcy_base.specs.declared.span.Span.{Span};
ghost use Rattle.vlog_expand.specs.declared.error.ParseError.{ParseError};
ghost use Rattle.vlog_expand.specs.declared.error.ParseError.TheVariants as e;
ghost use Rattle.vlog_syntax.specs.declared.module.Module.{Module};
ghost use Rattle.vlog_syntax.specs.Nesting.{module_nest};
ghost use Rattle.vlog_token.specs.declared.token.Token.{Token};
ghost use Rattle.vlog_grammar.specs.Reading.{AreTreesOf};
ghost use Rattle.vlog_grammar.specs.Trees.{Trees};
ghost use Rattle.vlog_trees.specs.OfKinds.{AreOfKinds};
ghost use Rattle.vlog_parse.specs.Classes.{classes};
ghost use Rattle.vlog_parse.specs.Parsing.{AreMeant, AreOneFault, AreParsed, IsFault, place, stopped};

use crate::classes::classes;
use crate::nesting::too_deep;
use mcy_base::Span;
use std::alloc::Global;
use vlog_expand::ParseError;
use vlog_grammar::{Reading, Stop, read};
use vlog_syntax::Module;
use vlog_token::Token;
use vlog_trees::build_modules;

#[tactic(auto, using(crate::proofs::Parses::is_stopped, crate::proofs::Parses::are_parsed, crate::proofs::Parses::are_shallow))]
/// The modules whose trees derive exactly these tokens (IEEE 1364-2005, Annex A, in the profile of docs/PROFILE.md).
/// `end` is the place of what is missing at the end.
pub fn parse(alloc: Global, tokens: &[Token<'_>], end: Span) -> Result<Vec<Module>, ParseError>
    // What is given is the meaning of trees of exactly these tokens, none of which is refused or too deep.
    ensures trees { IfOk result (λ ms. AreParsed tokens.now ms.items) }
    // No module nests deeper than 200 constructs.
    ensures nesting { IfOk result (λ ms. All (λ m. module_nest m ≤ 200) ms.items) }
    // A fault stands at the first token at which no text goes on, that is refused by name, or that is too deep.
    ensures faults { IfErr result (IsFault tokens.now end) }
{
    let classed = classes(alloc, tokens)?;
    let Reading { steps, stop } = read(alloc, classed.as_slice())?;
    if let Some(at) = too_deep(alloc, steps.as_slice())? {
        return Err(ParseError::TooDeep(place(tokens, end, at)));
    }
    match stop {
        Some(why) => Err(stopped(tokens, end, why)),
        None => Ok(build_modules(alloc, tokens, steps.as_slice())?),
    }
}

/// The place of the token with this number, or the end.
fn place(tokens: &[Token<'_>], end: Span, at: usize) -> Span
    ensures { result ≡ place tokens.now end at }
{
    match tokens.get(at) {
        Some(token) => token.span,
        None => end,
    }
}

/// The error of a stop.
fn stopped(tokens: &[Token<'_>], end: Span, why: Stop) -> ParseError
    ensures { result ≡ stopped tokens.now end why }
{
    match why {
        Stop::Unexpected(at) => ParseError::Unexpected(place(tokens, end, at)),
        Stop::Unsupported(at, feature) => {
            ParseError::Unsupported(place(tokens, end, at), feature)
        }
    }
}

/// Tokens have one answer: one list of modules or one fault, and never both. So each fault comes just where `parse` says.
pub fn one_answer()
    ensures modules { (tokens : List Token) (ms ns : List Module) → AreMeant tokens ms → AreMeant tokens ns → ms ≡ ns }
    ensures either { (tokens : List Token) (end : Span) (ms : List Module) (error : ParseError) → AreParsed tokens ms → IsFault tokens end error → error ≡ e.Memory }
    ensures faults { (tokens : List Token) (end : Span) (x y : ParseError) → IsFault tokens end x → IsFault tokens end y → AreOneFault x y }
{}

/// Each part of a text is of the sort of its kind, and each of its tokens stands among these. So where a production's line
/// speaks of a part, that part is there.
pub fn each_part_is_there()
    ensures { (tokens : List Token) (text : Trees) → AreTreesOf text (classes tokens) → AreOfKinds tokens text }
{}
