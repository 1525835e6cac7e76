//! The reading of a report.
ghost use Rattle.std.specs.Prelude.{◌≡◌, IfOk, length, true};
ghost use Rattle.tag_script.specs.Checks.{Reads};
ghost use Rattle.report_script.specs.Checks.{project_of};
ghost use Rattle.report_script.specs.Fits.{report_fits};
ghost use Rattle.report_script.specs.Reading.{report_by, report_in, report_of};

use crate::block::block_in;
use crate::checks::{Place, Scope};
use crate::draft::{Draft, closed};
use crate::report::Report;
use mcy_base::{LineList, TextList};
use script_lines::{Row, rows};
use std::alloc::Global;
use tag_script::{ScriptError, first_too_many};

/// All statements as a report, unless there are too many lines.
#[tactic(auto, unfolding(crate::specs::Reading::report_by))]
fn report_by(alloc: Global, limit: Option<u32>, all: Draft) -> Result<Report, ScriptError>
    ensures { Reads result (report_by limit all) }
{
    match limit {
        Some(number) => Err(ScriptError::Bad(number)),
        None => Ok(Report {
            statements: closed(alloc, all)?,
        }),
    }
}

/// The report of all its lines that say something.
#[tactic(auto, unfolding(crate::specs::Reading::report_in))]
fn read_rows(scope: &Scope<'_>, rows: &[Row]) -> Result<Report, ScriptError>
    ensures { Reads result (report_in (project_of scope.now) rows.now) }
{
    let top = Place {
        indent: 0,
        room: 33,
    };
    let all = block_in(scope, top, rows)?;
    report_by(scope.alloc, scope.limit, all)
}

/// Reads a report, whose tags are those of the project.
///
/// It refuses the first bad line. Of two faults of one line the one counts that `ScriptError` has first. Where a name stands twice
/// among the tags, the report means the first.
#[tactic(auto, unfolding(crate::specs::Reading::report_of))]
pub fn read_report(alloc: Global, lines: &LineList, tags: &TextList) -> Result<Report, ScriptError>
    ensures reads { Reads result (report_of tags.now lines.now) }
    ensures fits { IfOk result (λ report. report_fits (length tags.now) report ≡ true) }
{
    let rows = rows(alloc, lines.as_slice())?;
    let scope = Scope {
        alloc,
        tags: tags.as_slice(),
        limit: first_too_many(lines.as_slice()),
    };
    read_rows(&scope, rows.as_slice())
}
