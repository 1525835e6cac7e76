//! The mutations of a project: which sites of a netlist they are, their texts and their lines.
ghost use Rattle.std.specs.Prelude.{◌≡◌, ◌≤◌, ◌∷◌, ◌++◌, [], length, map, slice_get, All, IfOk, OnOk};
ghost use Rattle.std.specs.List.{filter_map};
ghost use Rattle.mutation_sites.specs.Mutants.{IsSite};
ghost use Rattle.mutation_sites.specs.SiteTexts.{site_text as text_of};
ghost use Rattle.campaign_choice.specs.Campaigns.{names_of};
ghost use Rattle.campaign_choice.specs.Mutations.{all_sites, mode_set, pick_of, picked_sites, site_line};

use mcy_base::{BytesList, SourceFile, Text, TextList};
use mutation_select::{Pick, select};
use mutation_sites::{ModeSet, Site, site_count, site_text, sites, span_at};
use netlist_core::Netlist;
use project_file::{ModeFlags, Project};
use result_book::PlaceList;
use std::alloc::{AllocError, Global};

/// The modes that a project names.
fn mode_set(flags: ModeFlags) -> ModeSet
    ensures { result ≡ mode_set flags }
{
    ModeSet {
        inv: flags.inv,
        const0: flags.const0,
        const1: flags.const1,
        cnot0: flags.cnot0,
        cnot1: flags.cnot1,
    }
}

/// How a project picks sites.
fn pick_of(even: bool) -> Pick
    ensures { result ≡ pick_of even }
{
    if even { Pick::Even } else { Pick::Plain }
}

/// How many sites a project's modes have at a netlist.
pub(crate) fn site_total(project: &Project, netlist: &Netlist) -> u64
    ensures { result ≡ length (all_sites project.now netlist.now.raw) }
{
    site_count(netlist, mode_set(project.modes))
}

/// The sites of a project's modes at a netlist.
pub fn all_sites(
    alloc: Global,
    project: &Project,
    netlist: &Netlist,
) -> Result<Vec<Site>, AllocError>
    ensures all { IfOk result (λ list. list.items ≡ all_sites project.now netlist.now.raw) }
    ensures placed { IfOk result (λ list. All (IsSite netlist.now.raw) list.items) }
{
    sites(alloc, netlist, mode_set(project.modes))
}

/// The sites of a project's mutations, from those of its modes. `omitted` tells by their numbers which of these are left out.
pub(crate) fn picked_sites(
    alloc: Global,
    project: &Project,
    netlist: &Netlist,
    all: &[Site],
    omitted: &[bool],
) -> Result<Vec<Site>, AllocError>
    requires few { length all.now ≤ 4294967295 }
    requires all { all.now ≡ all_sites project.now netlist.now.raw }
    ensures { IfOk result (λ list. list.items ≡ picked_sites project.now omitted.now netlist.now.raw) }
{
    let pick = pick_of(project.even);
    let seed = project.word_seed;
    let numbers = select(alloc, netlist, all, project.size, seed, pick, omitted)?;
    numbered(alloc, all, &numbers)
}

/// The sites with these numbers, from 0.
fn numbered(alloc: Global, all: &[Site], numbers: &[u32]) -> Result<Vec<Site>, AllocError>
    ensures { IfOk result (λ list. list.items ≡ filter_map (slice_get all.now) numbers.now) }
{
    let mut list = Vec::new(alloc);
    for number in numbers {
        add_numbered(&mut list, all, *number)?;
    }
    Ok(list)
}

/// Adds the site with this number, where there is one.
fn add_numbered(list: &mut Vec<Site>, all: &[Site], number: u32) -> Result<(), AllocError>
    ensures { OnOk result (list.new.items ≡ list.old.items ++ filter_map (slice_get all.now) (number ∷ [])) }
{
    match all.get(number as usize) {
        Some(site) => {
            list.push(*site)?;
            Ok(())
        }
        None => Ok(()),
    }
}

/// The names of files.
fn file_names(alloc: Global, files: &[SourceFile]) -> Result<TextList, AllocError>
    ensures { IfOk result (λ names. names ≡ names_of files.now) }
{
    let mut names = Vec::new(alloc);
    for file in files {
        names.push(Text::copy(alloc, file.name.as_str())?)?;
    }
    Ok(TextList::from_vec(names))
}

/// The texts of sites of the netlist, whose sources are these files.
pub(crate) fn site_texts(
    alloc: Global,
    netlist: &Netlist,
    files: &[SourceFile],
    sites: &[Site],
) -> Result<BytesList, AllocError>
    requires { All (IsSite netlist.now.raw) sites.now }
    ensures { IfOk result (λ list. list ≡ map (text_of netlist.now.raw (names_of files.now)) sites.now) }
{
    let names = file_names(alloc, files)?;
    let mut list = Vec::new(alloc);
    for site in sites {
        list.push(site_text(alloc, netlist, &names, site)?)?;
    }
    Ok(BytesList::from_vec(list))
}

/// The file and the line of each of these sites of the netlist.
pub(crate) fn site_lines(
    alloc: Global,
    netlist: &Netlist,
    sites: &[Site],
) -> Result<PlaceList, AllocError>
    ensures { IfOk result (λ list. list ≡ map (site_line netlist.now.raw) sites.now) }
{
    let mut list = Vec::new(alloc);
    for site in sites {
        let span = span_at(netlist.raw(), site.place);
        list.push((span.file, span.line))?;
    }
    Ok(PlaceList::from_vec(list))
}
