//! A line of a block: what it says, or what is wrong with it.
ghost use Rattle.std.specs.Prelude.{◌≡◌, ◌≤◌, IfOk};
ghost use Rattle.tag_script.specs.Checks.{Reads, excess, expr_fault, fitted, formed, has_lines, is_further, is_indented_so, is_misplaced, is_past_limit, line, named, named_fault, project_of, tokens_or_none, worded};

use crate::script::ScriptError;
use mcy_base::{BytesList, Items, Text};
use script_lines::{Row, Token};
use std::alloc::{AllocError, Global};
use tag_lines::{Expr, Head, Words, add_names, head_of, uses_of};

/// What a script is read for: the tests and tags of the project, and the number of the first line that is too many.
#[derive(Clone, Copy)]
pub struct Scope<'a> {
    pub alloc: Global,
    pub tests: &'a [Text],
    pub tags: &'a [Text],
    pub limit: Option<u32>,
}

/// Where a block stands.
#[derive(Clone, Copy)]
pub struct Place {
    /// How many spaces stand in front of its lines.
    pub indent: usize,
    /// One more than how many bodies, parentheses and `not`s may be opened in it, or 0 where it is itself one body too many.
    pub room: usize,
}

/// The names of the lines before a line, each once, and the places of those that are assigned on all paths to it.
#[derive(Drop)]
pub struct Known {
    pub names: BytesList,
    pub assigned: Items<usize>,
}

/// That the line stands where a script may have no more lines.
#[tactic(auto, unfolding(crate::specs::Checks::excess))]
pub fn excess(limit: Option<u32>, number: u32) -> Option<ScriptError>
    ensures { result ≡ excess limit number }
{
    match limit {
        Some(limit) if limit <= number => Some(ScriptError::Bad(limit)),
        _ => None,
    }
}

/// Whether a line is indented further, or has no indentation.
pub fn is_further(indent: usize, row: &Row) -> bool
    ensures { result ≡ is_further indent row.now }
{
    match row.indent {
        None => true,
        Some(other) => indent < other,
    }
}

/// Whether there are lines.
pub fn has_lines(rows: &[Row]) -> bool
    ensures { result ≡ has_lines rows.now }
{
    match rows {
        [] => false,
        [_, ..] => true,
    }
}

/// Whether the indentation is this one.
pub fn is_indented_so(indent: usize, found: Option<usize>) -> bool
    ensures { result ≡ is_indented_so indent found }
{
    match found {
        None => false,
        Some(other) => other == indent,
    }
}

fn is_past_limit(place: Place, known: &Known) -> bool
    ensures { result ≡ is_past_limit place known.now }
{
    place.room == 0 || known.names.as_slice().len() > 32
}

/// Whether a line goes on an `if` where none is open, or lacks its body.
fn is_misplaced(in_arms: bool, body: &[Row], said: &Head) -> bool
    ensures { result ≡ is_misplaced in_arms body.now said.now }
{
    match said {
        Head::If(_) => !has_lines(body),
        Head::Elif(_) | Head::Else => !(in_arms && has_lines(body)),
        _ => false,
    }
}

/// What is wrong with what an expression uses.
fn expr_fault(scope: &Scope<'_>, known: &Known, number: u32, expr: &Expr) -> Option<ScriptError>
    ensures { result ≡ expr_fault (project_of scope.now) known.now number (Some expr.now) }
{
    let uses = uses_of(scope.tests.len(), known.assigned.as_slice(), expr);
    if !uses.tests {
        Some(ScriptError::UnknownTest(number))
    } else if !uses.names {
        Some(ScriptError::Unassigned(number))
    } else {
        None
    }
}

/// What is wrong with what a line of a known form names.
#[tactic(auto, unfolding(crate::specs::Checks::named_fault))]
fn named_fault(scope: &Scope<'_>, known: &Known, number: u32, said: &Head) -> Option<ScriptError>
    ensures { result ≡ named_fault (project_of scope.now) known.now number said.now }
{
    match said {
        Head::Assign(_, x) | Head::Assert(x) | Head::If(x) | Head::Elif(x) => {
            expr_fault(scope, known, number, x)
        }
        Head::Tag(tag) if *tag >= scope.tags.len() => Some(ScriptError::UnknownTag(number)),
        _ => None,
    }
}

/// A line of a form, or of none.
#[tactic(auto, unfolding(crate::specs::Checks::formed))]
fn formed(
    in_arms: bool,
    scope: &Scope<'_>,
    known: &Known,
    number: u32,
    body: &[Row],
    said: Option<Head>,
) -> Result<Head, ScriptError>
    ensures { Reads result (formed in_arms (project_of scope.now) known.now number body.now said) }
{
    let Some(said) = said else {
        return Err(ScriptError::Bad(number));
    };
    if is_misplaced(in_arms, body, &said) {
        return Err(ScriptError::Bad(number));
    }
    match named_fault(scope, known, number, &said) {
        Some(fault) => Err(fault),
        None => Ok(said),
    }
}

/// A line with these tokens.
#[tactic(auto, unfolding(crate::specs::Checks::worded))]
fn worded(
    in_arms: bool,
    scope: &Scope<'_>,
    place: Place,
    known: &Known,
    number: u32,
    tokens: &[Token],
    body: &[Row],
) -> Result<Head, ScriptError>
    ensures few { IfOk result (λ said. 1 ≤ place.room) }
    ensures reads { Reads result (worded in_arms (project_of scope.now) place known.now number tokens.now body.now) }
{
    if is_past_limit(place, known) {
        return Err(ScriptError::Bad(number));
    }
    let words = Words {
        tests: scope.tests,
        tags: scope.tags,
        names: known.names.as_slice(),
    };
    let said = head_of(scope.alloc, &words, place.room - 1, tokens)?;
    formed(in_arms, scope, known, number, body, said)
}

/// What a line of a block says, where this is known with the names of the line, and the lines of `body` behind it are indented
/// further. `in_arms` where an `if` may go on here.
#[tactic(auto, unfolding(crate::specs::Checks::line, crate::specs::Checks::fitted))]
pub fn line(
    in_arms: bool,
    scope: &Scope<'_>,
    place: Place,
    known: &Known,
    row: &Row,
    body: &[Row],
) -> Result<Head, ScriptError>
    ensures few { IfOk result (λ said. 1 ≤ place.room) }
    ensures reads { Reads result (line in_arms (project_of scope.now) place known.now row.now body.now) }
{
    if let Some(fault) = excess(scope.limit, row.number) {
        return Err(fault);
    }
    if !is_indented_so(place.indent, row.indent) {
        return Err(ScriptError::Indent(row.number));
    }
    match &row.tokens {
        None => Err(ScriptError::Bad(row.number)),
        Some(tokens) => worded(
            in_arms,
            scope,
            place,
            known,
            row.number,
            tokens.as_slice(),
            body,
        ),
    }
}

/// The tokens of a line, or none where it cannot be read.
pub fn tokens_or_none(row: &Row) -> &[Token]
    ensures { result.now ≡ tokens_or_none row.now }
{
    match &row.tokens {
        None => &[],
        Some(tokens) => tokens.as_slice(),
    }
}

/// What is known with the names of a line.
#[tactic(auto, unfolding(crate::specs::Checks::named))]
pub fn named(alloc: Global, known: Known, row: &Row) -> Result<Known, AllocError>
    ensures { IfOk result (λ new. new ≡ named known row.now) }
{
    let Known {
        mut names,
        assigned,
    } = known;
    add_names(alloc, &mut names, tokens_or_none(row))?;
    Ok(Known { names, assigned })
}
