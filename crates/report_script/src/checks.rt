//! A line of a block: what it says, or what is wrong with it.
ghost use Rattle.std.specs.Prelude.{◌≡◌, ◌≤◌, IfOk};
ghost use Rattle.tag_script.specs.Checks.{Reads};
ghost use Rattle.report_script.specs.Checks.{fitted, formed, is_misplaced, line, project_of, worded};

use mcy_base::Text;
use report_lines::{Head, head_fits, head_of};
use script_lines::{Row, Token};
use std::alloc::Global;
use tag_script::{ScriptError, excess, has_lines, is_indented_so};

/// What a report is read for: the tags of the project, and the number of the first line that is too many.
#[derive(Clone, Copy)]
pub struct Scope<'a> {
    pub alloc: Global,
    pub tags: &'a [Text],
    pub limit: Option<u32>,
}

/// Where a block stands.
#[derive(Clone, Copy)]
pub struct Place {
    /// How many spaces stand in front of its lines.
    pub indent: usize,
    /// One more than how many bodies, parentheses and `not`s may be opened in it, or 0 where it is itself one body too many.
    pub room: usize,
}

/// Whether a line goes on an `if` where none is open, or lacks its body.
fn is_misplaced(in_arms: bool, body: &[Row], said: &Head) -> bool
    ensures { result ≡ is_misplaced in_arms body.now said.now }
{
    match said {
        Head::If(_) => !has_lines(body),
        Head::Elif(_) | Head::Else => !(in_arms && has_lines(body)),
        _ => false,
    }
}

/// A line of a form, or of none.
#[tactic(auto, unfolding(crate::specs::Checks::formed))]
fn formed(
    in_arms: bool,
    scope: &Scope<'_>,
    number: u32,
    body: &[Row],
    said: Option<Head>,
) -> Result<Head, ScriptError>
    ensures { Reads result (formed in_arms (project_of scope.now) number body.now said) }
{
    let Some(said) = said else {
        return Err(ScriptError::Bad(number));
    };
    if is_misplaced(in_arms, body, &said) {
        return Err(ScriptError::Bad(number));
    }
    if head_fits(scope.tags.len(), &said) {
        Ok(said)
    } else {
        Err(ScriptError::UnknownTag(number))
    }
}

/// A line with these tokens.
#[tactic(auto, unfolding(crate::specs::Checks::worded))]
fn worded(
    in_arms: bool,
    scope: &Scope<'_>,
    room: usize,
    number: u32,
    tokens: &[Token],
    body: &[Row],
) -> Result<Head, ScriptError>
    ensures few { IfOk result (λ said. 1 ≤ room) }
    ensures reads { Reads result (worded in_arms (project_of scope.now) room number tokens.now body.now) }
{
    if room == 0 {
        return Err(ScriptError::Bad(number));
    }
    let said = head_of(scope.alloc, scope.tags, room - 1, tokens)?;
    formed(in_arms, scope, number, body, said)
}

/// What a line of a block says, where the lines of `body` behind it are indented further. `in_arms` where an `if` may go on here.
#[tactic(auto, unfolding(crate::specs::Checks::line, crate::specs::Checks::fitted))]
pub fn line(
    in_arms: bool,
    scope: &Scope<'_>,
    place: Place,
    row: &Row,
    body: &[Row],
) -> Result<Head, ScriptError>
    ensures few { IfOk result (λ said. 1 ≤ place.room) }
    ensures reads { Reads result (line in_arms (project_of scope.now) place row.now body.now) }
{
    if let Some(fault) = excess(scope.limit, row.number) {
        return Err(fault);
    }
    if !is_indented_so(place.indent, row.indent) {
        return Err(ScriptError::Indent(row.number));
    }
    match &row.tokens {
        None => Err(ScriptError::Bad(row.number)),
        Some(tokens) => worded(
            in_arms,
            scope,
            place.room,
            row.number,
            tokens.as_slice(),
            body,
        ),
    }
}
