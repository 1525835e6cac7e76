//! The reading of blocks: line by line, each with its body.
//!
//! A call for a body has one in `room` less, so calls nest as deep as bodies may, and no deeper.
ghost use Rattle.std.specs.Prelude.{◌≡◌, ◌≤◌, ◌<◌, ◌+◌, drop, length, take};
ghost use Rattle.tag_script.specs.Blocks.{block_in, body_in, body_len, first_indent, inner_indent, opens_body, with_part};
ghost use Rattle.tag_script.specs.Checks.{Reads, project_of};

use crate::checks::{Known, Place, Scope, is_further, line, named};
use crate::draft::{Block, copied, is_open, joined, new_block};
use crate::script::ScriptError;
use script_lines::Row;
use tag_lines::Head;

/// How many lines in front are indented further.
#[tactic(auto, unfolding(crate::specs::Blocks::body_len))]
pub fn body_len(indent: usize, rows: &[Row]) -> usize
    ensures value { result ≡ body_len indent rows.now }
    ensures shorter { result ≤ length rows.now }
{
    for (i, row) in rows.iter().enumerate() {
        if !is_further(indent, row) {
            return i;
        }
    }
    rows.len()
}

/// So many of these lines in front.
pub fn first_rows(used: usize, rows: &[Row]) -> &[Row]
    requires { used ≤ length rows.now }
    ensures { result.now ≡ take used rows.now }
{
    &rows[..used]
}

/// The lines behind so many of these.
pub fn rows_behind(used: usize, rows: &[Row]) -> &[Row]
    requires { used ≤ length rows.now }
    ensures value { result.now ≡ drop used rows.now }
    ensures rest { used + length result.now ≡ length rows.now }
{
    &rows[used..]
}

fn opens_body(said: &Head) -> bool
    ensures { result ≡ opens_body said.now }
{
    match said {
        Head::If(_) | Head::Elif(_) | Head::Else => true,
        _ => false,
    }
}

/// How far the first line is indented, if there is one.
pub fn first_indent(rows: &[Row]) -> usize
    ensures { result ≡ first_indent rows.now }
{
    match rows {
        [row, ..] => row.indent.unwrap_or(0),
        [] => 0,
    }
}

/// How far the lines of a body are to be indented.
#[tactic(auto, unfolding(crate::specs::Blocks::inner_indent))]
fn inner_indent(indent: usize, said: &Head, body: &[Row]) -> usize
    ensures { result ≡ inner_indent indent said.now body.now }
{
    if opens_body(said) {
        first_indent(body)
    } else {
        indent
    }
}

/// A block, behind lines of which this is known.
#[cycle(read)]
pub fn block_in(
    scope: &Scope<'_>,
    place: Place,
    known: Known,
    rows: &[Row],
) -> Result<Block, ScriptError>
    ensures { Reads result (block_in (project_of scope.now) place.room place.indent known rows.now) }
{
    let mut block = new_block(scope.alloc, known);
    let mut rest = rows;
    'lines: while let [row, more @ ..] = rest {
        let len = body_len(place.indent, more);
        let body = first_rows(len, more);
        match with_part(scope, place, block, row, body) {
            Ok(longer) => block = longer,
            Err(fault) => return Err(fault),
        }
        rest = rows_behind(len, more);
    }
    Ok(block)
}

/// The block with one line more.
#[tactic(auto, unfolding(crate::specs::Blocks::with_part))]
#[cycle(read)]
fn with_part(
    scope: &Scope<'_>,
    place: Place,
    block: Block,
    row: &Row,
    body: &[Row],
) -> Result<Block, ScriptError>
    ensures { let p = project_of scope.now in Reads result (with_part p (body_in p place.room) place block (record { row = row.now; body = body.now })) }
{
    let before = copied(scope.alloc, block.known.assigned.as_slice())?;
    let known = named(scope.alloc, block.known, row)?;
    let said = line(is_open(&block.draft), scope, place, &known, row, body)?;
    let indent = inner_indent(place.indent, &said, body);
    match body_in(scope, indent, place.room, known, body) {
        Ok(inner) => Ok(joined(scope.alloc, block.draft, before, row.number, said, inner)?),
        Err(fault) => Err(fault),
    }
}

/// A body in a block with so much room.
#[tactic(auto, using(crate::proofs::Rooms::body_more))]
#[cycle(read)]
fn body_in(
    scope: &Scope<'_>,
    indent: usize,
    room: usize,
    known: Known,
    rows: &[Row],
) -> Result<Block, ScriptError>
    requires { 1 ≤ room }
    ensures { Reads result (body_in (project_of scope.now) room indent known rows.now) }
{
    let place = Place {
        indent,
        room: room - 1,
    };
    block_in(scope, place, known, rows)
}
