//! The reading of a tag script.
ghost use Rattle.std.specs.Prelude.{◌≡◌, IfOk, length, true};
ghost use Rattle.tag_script.specs.Checks.{Reads, project_of};
ghost use Rattle.tag_script.specs.Fits.{script_fits};
ghost use Rattle.tag_script.specs.Reading.{first_too_many, nothing_known, script_by, script_in, script_of};

use crate::block::block_in;
use crate::checks::{Known, Place, Scope};
use crate::draft::{Block, closed};
use crate::script::{Script, ScriptError};
use mcy_base::{Items, Line, LineList, TextList};
use script_lines::{Row, rows};
use std::alloc::Global;

/// The number of the first line that is too many.
pub fn first_too_many(lines: &[Line]) -> Option<u32>
    ensures { result ≡ first_too_many lines.now }
{
    match lines.get(1000) {
        Some(line) => Some(line.number),
        None => None,
    }
}

/// All statements as a script, unless there are too many lines.
#[tactic(auto, unfolding(crate::specs::Reading::script_by))]
fn script_by(alloc: Global, limit: Option<u32>, all: Block) -> Result<Script, ScriptError>
    ensures { Reads result (script_by limit all) }
{
    match limit {
        Some(number) => Err(ScriptError::Bad(number)),
        None => Ok(Script {
            statements: closed(alloc, all.draft)?,
        }),
    }
}

/// No name.
fn nothing_known(alloc: Global) -> Known
    ensures { result ≡ nothing_known }
{
    Known {
        names: Items::from_vec(Vec::new(alloc)),
        assigned: Items::from_vec(Vec::new(alloc)),
    }
}

/// The script of all its lines that say something.
#[tactic(auto, unfolding(crate::specs::Reading::script_in))]
fn read_rows(scope: &Scope<'_>, rows: &[Row]) -> Result<Script, ScriptError>
    ensures { Reads result (script_in (project_of scope.now) rows.now) }
{
    let top = Place {
        indent: 0,
        room: 33,
    };
    let all = block_in(scope, top, nothing_known(scope.alloc), rows)?;
    script_by(scope.alloc, scope.limit, all)
}

/// Reads a tag script, whose tests and tags are those of the project.
///
/// It refuses the first bad line, so that a script that was read names only these tests and tags. Of two faults of one line the one counts that `ScriptError` has first. Where a name stands twice
/// among the tests or the tags, the script means the first.
#[tactic(auto, unfolding(crate::specs::Reading::script_of))]
pub fn read_script(
    alloc: Global,
    lines: &LineList,
    tests: &TextList,
    tags: &TextList,
) -> Result<Script, ScriptError>
    ensures reads { Reads result (script_of tests.now tags.now lines.now) }
    ensures fits { IfOk result (λ script. script_fits (length tests.now) (length tags.now) script ≡ true) }
{
    let rows = rows(alloc, lines.as_slice())?;
    let scope = Scope {
        alloc,
        tests: tests.as_slice(),
        tags: tags.as_slice(),
        limit: first_too_many(lines.as_slice()),
    };
    read_rows(&scope, rows.as_slice())
}
