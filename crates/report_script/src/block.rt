//! The reading of blocks: line by line, each with its body.
//!
//! A call for a body has one in `room` less, so calls nest as deep as bodies may, and no deeper.
ghost use Rattle.std.specs.Prelude.{◌≡◌, ◌≤◌, ◌-◌};
ghost use Rattle.tag_script.specs.Checks.{Reads};
ghost use Rattle.report_script.specs.Blocks.{block_in, body_in, inner_indent, opens_body, with_part};
ghost use Rattle.report_script.specs.Checks.{project_of};

use crate::checks::{Place, Scope, line};
use crate::draft::{Draft, is_open, joined, new_draft};
use report_lines::Head;
use script_lines::Row;
use tag_script::{ScriptError, body_len, first_indent, first_rows, rows_behind};

fn opens_body(said: &Head) -> bool
    ensures { result ≡ opens_body said.now }
{
    match said {
        Head::If(_) | Head::Elif(_) | Head::Else => true,
        _ => false,
    }
}

/// How far the lines of a body are to be indented.
#[tactic(auto, unfolding(crate::specs::Blocks::inner_indent))]
fn inner_indent(indent: usize, said: &Head, body: &[Row]) -> usize
    ensures { result ≡ inner_indent indent said.now body.now }
{
    if opens_body(said) {
        first_indent(body)
    } else {
        indent
    }
}

/// A block.
#[cycle(read)]
pub fn block_in(scope: &Scope<'_>, place: Place, rows: &[Row]) -> Result<Draft, ScriptError>
    ensures { Reads result (block_in (project_of scope.now) place.room place.indent rows.now) }
{
    let mut draft = new_draft(scope.alloc);
    let mut rest = rows;
    'lines: while let [row, more @ ..] = rest {
        let len = body_len(place.indent, more);
        let body = first_rows(len, more);
        match with_part(scope, place, draft, row, body) {
            Ok(longer) => draft = longer,
            Err(fault) => return Err(fault),
        }
        rest = rows_behind(len, more);
    }
    Ok(draft)
}

/// The draft with one line more.
#[tactic(auto, unfolding(crate::specs::Blocks::with_part))]
#[cycle(read)]
fn with_part(
    scope: &Scope<'_>,
    place: Place,
    draft: Draft,
    row: &Row,
    body: &[Row],
) -> Result<Draft, ScriptError>
    ensures { let p = project_of scope.now in Reads result (with_part p (body_in p place.room) place draft (record { row = row.now; body = body.now })) }
{
    let said = line(is_open(&draft), scope, place, row, body)?;
    let indent = inner_indent(place.indent, &said, body);
    match body_in(scope, indent, place.room, body) {
        Ok(inner) => Ok(joined(scope.alloc, draft, row.number, said, inner)?),
        Err(fault) => Err(fault),
    }
}

/// A body in a block with so much room.
#[tactic(auto, using(crate::proofs::Rooms::body_more))]
#[cycle(read)]
fn body_in(
    scope: &Scope<'_>,
    indent: usize,
    room: usize,
    rows: &[Row],
) -> Result<Draft, ScriptError>
    requires { 1 ≤ room }
    ensures { Reads result (body_in (project_of scope.now) room indent rows.now) }
{
    let place = Place {
        indent,
        room: room - 1,
    };
    block_in(scope, place, rows)
}
