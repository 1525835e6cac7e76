//! The sites that a project leaves out: those that are not on the lines that it names, and those within the instances that it skips.
ghost use Rattle.std.specs.Prelude.{◌≡◌, Bool, IfOk, map};
ghost use Rattle.std.specs.List.{list_all, list_any};
ghost use Rattle.project_file.specs.Projects.{design_files};
ghost use Rattle.campaign_choice.specs.Mutations.{all_sites};
ghost use Rattle.campaign_choice.specs.Omitted.{file_at, is_asked, is_omitted, is_on, is_within, lacks_sites, omitted_sites};

use mcy_base::Text;
use mutation_sites::{Place, Site, span_at};
use netlist_core::Netlist;
use project_file::{LineRange, Project};
use project_options::is_within_some;
use std::alloc::{AllocError, Global};

/// Whether a line of a file is among these lines.
fn is_on(file: &str, line: u32, range: &LineRange) -> bool
    ensures { result ≡ is_on file.now line range.now }
{
    range.file.as_str() == file && range.from <= line && line <= range.to
}

/// Whether a line of a file is among one of these lines.
fn is_on_some(ranges: &[LineRange], file: &str, line: u32) -> bool
    ensures { result ≡ list_any (is_on file.now line) ranges.now }
{
    ranges.iter().any(|range| is_on(file, line, range))
}

/// Whether it is on lines that are asked for: on any where none are named.
fn is_asked(ranges: &[LineRange], file: &str, line: u32) -> bool
    ensures { result ≡ is_asked ranges.now file.now line }
{
    ranges.is_empty() || is_on_some(ranges, file, line)
}

/// The name of a file, by its number among these.
fn file_at<'a>(files: &[&'a str], number: u16) -> &'a str
    ensures { result.now ≡ file_at (map (λ name. name.now) files.now) number }
{
    match files.get(number as usize) {
        Some(name) => *name,
        None => "",
    }
}

/// Whether a place of the netlist is within an instance that is skipped: a cell where its flag is set, a register by its name.
fn is_within(instances: &[Text], skipped: &[bool], netlist: &Netlist, place: Place) -> bool
    ensures { result ≡ is_within instances.now skipped.now netlist.now.raw place }
{
    match place {
        Place::Cell(number) => match skipped.get(number as usize) {
            Some(is_skipped) => *is_skipped,
            None => false,
        },
        Place::Register(number) => match netlist.raw().registers.as_slice().get(number as usize) {
            Some(register) => is_within_some(instances, register.name.as_str()),
            None => is_within_some(instances, ""),
        },
    }
}

/// Whether a site is left out, where the files of the design have these names.
fn is_omitted(
    project: &Project,
    files: &[&str],
    skipped: &[bool],
    netlist: &Netlist,
    site: &Site,
) -> bool
    requires { map (λ name. name.now) files.now ≡ design_files project.now }
    ensures { result ≡ is_omitted project.now skipped.now netlist.now.raw site.now }
{
    let span = span_at(netlist.raw(), site.place);
    let file = file_at(files, span.file);
    !is_asked(project.only.as_slice(), file, span.line)
        || is_within(project.skip.as_slice(), skipped, netlist, site.place)
}

/// For each site of the project's modes, whether it is left out. `skipped` tells of each cell whether it is within an instance that
/// the project skips.
pub fn omitted_sites(
    alloc: Global,
    project: &Project,
    skipped: &[bool],
    netlist: &Netlist,
    all: &[Site],
) -> Result<Vec<bool>, AllocError>
    requires { all.now ≡ all_sites project.now netlist.now.raw }
    ensures { IfOk result (λ list. list.items ≡ omitted_sites project.now skipped.now netlist.now.raw) }
{
    let files = project.design_files(alloc)?;
    let mut list = Vec::new(alloc);
    for site in all {
        list.push(is_omitted(project, &files, skipped, netlist, site))?;
    }
    Ok(list)
}

/// Whether each flag is set.
fn are_set(flags: &[bool]) -> bool
    ensures { result ≡ list_all (λ (flag : Bool). flag) flags.now }
{
    flags.iter().all(|flag| *flag)
}

/// Whether there are sites, and all are left out.
pub fn lacks_sites(omitted: &[bool]) -> bool
    ensures { result ≡ lacks_sites omitted.now }
{
    !omitted.is_empty() && are_set(omitted)
}
