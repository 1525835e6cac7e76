//! The cells of a design's files that are within instances.
ghost use Rattle.std.specs.Prelude.{◌<◌, ◌≤◌, ◌^◌, length, All, IfOk};
ghost use Rattle.project_sources.specs.Skipped.{CellsAreTold, HasSkipped, SkipsCells, SkipsOnce};

use crate::netlist::read_sources;
use mcy_base::{SourceFile, Text};
use std::alloc::{AllocError, Global};

/// For each cell of the design of the files, whether it is within one of these instances.
fn found_cells(
    alloc: Global,
    files: &[SourceFile],
    top: &str,
    instances: &[Text],
) -> Result<Vec<bool>, AllocError>
    requires few { length files.now ≤ 65536 }
    requires short { All (λ f. length f.bytes < 2 ^ 31) files.now }
    ensures { IfOk result (λ flags. HasSkipped files.now top.now instances.now flags.items) }
{
    match read_sources(alloc, files) {
        Ok(modules) => cell_scopes::skipped_cells(alloc, &modules, top, instances),
        Err(_) => Err(AllocError),
    }
}

/// The same, but nothing is told where no instance is named. Where the files have a netlist, only want of memory is in the way.
pub fn skipped_cells(
    alloc: Global,
    files: &[SourceFile],
    top: &str,
    instances: &[Text],
) -> Result<Vec<bool>, AllocError>
    requires few { length files.now ≤ 65536 }
    requires short { All (λ f. length f.bytes < 2 ^ 31) files.now }
    ensures { IfOk result (λ flags. SkipsCells files.now top.now instances.now flags.items) }
{
    match instances {
        [] => Ok(Vec::new(alloc)),
        [_, ..] => found_cells(alloc, files, top, instances),
    }
}

/// The cells that are skipped are told in one way, each cell of the netlist by a flag.
pub fn cells_are_skipped_once()
    ensures once { SkipsOnce }
    ensures each { CellsAreTold }
{}
