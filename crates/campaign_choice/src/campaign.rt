//! The campaign of a project, its scripts and its sources, as a book keeps it and the texts tell it.
ghost use Rattle.std.specs.Prelude.{◌≡◌, All, IfOk, map};
ghost use Rattle.mutation_sites.specs.Mutants.{IsSite};
ghost use Rattle.mutation_sites.specs.SiteTexts.{site_text};
ghost use Rattle.campaign_choice.specs.Campaigns.{campaign_of, file_item, meta_of, names_of};
ghost use Rattle.campaign_choice.specs.Mutations.{site_line};
ghost use Rattle.campaign_choice.specs.Projects.{design_part, test_kinds as kinds_of_tests, test_names as names_of_tests};

use crate::mutations::{site_lines, site_texts};
use crate::project::{Scripted, design_part, test_kinds, test_names};
use mcy_base::{Bytes, BytesList, FileList, SourceFile, Text, TextList};
use mutation_sites::Site;
use netlist_core::Netlist;
use project_file::{Project, TestPlan};
use result_book::{Campaign, NumberList, PlaceList};
use std::alloc::{AllocError, Global};

/// What a book keeps of a file.
fn file_item(alloc: Global, file: &SourceFile) -> Result<Bytes, AllocError>
    ensures { IfOk result (λ item. item ≡ file_item file.now) }
{
    let mut item = file.name.as_str().as_bytes().to_vec(alloc)?;
    item.push(b'\n')?;
    item.extend_from_slice(file.bytes.as_slice())?;
    Ok(Bytes::from_vec(item))
}

/// What a book keeps of the project and its sources.
fn make_meta(alloc: Global, config: &[u8], files: &[SourceFile]) -> Result<BytesList, AllocError>
    ensures { IfOk result (λ meta. meta ≡ meta_of config.now files.now) }
{
    let mut meta = Vec::new(alloc);
    meta.push(Bytes::copy(alloc, b"2")?)?;
    meta.push(Bytes::copy(alloc, config)?)?;
    for file in files {
        meta.push(file_item(alloc, file)?)?;
    }
    Ok(BytesList::from_vec(meta))
}

/// A copy of a file.
fn copy_file(alloc: Global, file: &SourceFile) -> Result<SourceFile, AllocError>
    ensures { IfOk result (λ copy. copy ≡ file.now) }
{
    Ok(SourceFile {
        name: Text::copy(alloc, file.name.as_str())?,
        bytes: Bytes::copy(alloc, file.bytes.as_slice())?,
    })
}

/// Copies of the files.
fn copy_files(alloc: Global, files: &[SourceFile]) -> Result<FileList, AllocError>
    ensures { IfOk result (λ copies. copies ≡ files.now) }
{
    let mut copies = Vec::new(alloc);
    for file in files {
        copies.push(copy_file(alloc, file)?)?;
    }
    Ok(FileList::from_vec(copies))
}

/// Copies of the files of the design, which stand first.
pub(crate) fn design_copies(
    alloc: Global,
    project: &Project,
    files: &[SourceFile],
) -> Result<FileList, AllocError>
    ensures { IfOk result (λ copies. copies ≡ design_part project.now files.now) }
{
    copy_files(alloc, design_part(alloc, project, files)?)
}

/// The words that are expected of each test.
fn expected(alloc: Global, tests: &[TestPlan]) -> Result<NumberList, AllocError>
    ensures { IfOk result (λ list. list ≡ map (λ test. test.expect) tests.now) }
{
    Ok(NumberList::from_vec(tests.iter().map(|test| test.expect).collect(alloc)?))
}

/// The lists of a campaign that its project, its sources and the sites of its mutations give.
#[derive(Drop)]
struct Lists {
    meta: BytesList,
    mutations: BytesList,
    lines: PlaceList,
    test_names: TextList,
    kinds: NumberList,
    expect: NumberList,
}

/// These lists, of the sites of the netlist at which the mutations are.
fn lists_of(
    alloc: Global,
    config: &[u8],
    project: &Project,
    files: &[SourceFile],
    netlist: &Netlist,
    sites: &[Site],
) -> Result<Lists, AllocError>
    requires { All (IsSite netlist.now.raw) sites.now }
    ensures meta { IfOk result (λ lists. lists.meta ≡ meta_of config.now files.now) }
    ensures mutations { IfOk result (λ lists. lists.mutations ≡ map (site_text netlist.now.raw (names_of files.now)) sites.now) }
    ensures lines { IfOk result (λ lists. lists.lines ≡ map (site_line netlist.now.raw) sites.now) }
    ensures test_names { IfOk result (λ lists. lists.test_names ≡ names_of_tests project.now) }
    ensures kinds { IfOk result (λ lists. lists.kinds ≡ kinds_of_tests project.now) }
    ensures expect { IfOk result (λ lists. lists.expect ≡ map (λ test. test.expect) project.now.tests) }
{
    let tests = project.tests.as_slice();
    Ok(Lists {
        meta: make_meta(alloc, config, files)?,
        mutations: site_texts(alloc, netlist, files, sites)?,
        lines: site_lines(alloc, netlist, sites)?,
        test_names: test_names(alloc, tests)?,
        kinds: test_kinds(alloc, tests)?,
        expect: expected(alloc, tests)?,
    })
}

/// What the book and the texts are made of: a project with its scripts, its sources and the sites of the mutations in their netlist.
pub(crate) fn new_campaign(
    alloc: Global,
    config: &[u8],
    taken: Scripted,
    files: &[SourceFile],
    netlist: &Netlist,
    sites: &[Site],
) -> Result<Campaign, AllocError>
    requires { All (IsSite netlist.now.raw) sites.now }
    ensures { IfOk result (λ campaign. campaign ≡ campaign_of config.now taken.project taken.script taken.report files.now netlist.now.raw sites.now) }
{
    let lists = lists_of(alloc, config, &taken.project, files, netlist, sites)?;
    let conflicts = taken.project.conflicts;
    let (project, script, report) = taken.into_parts();
    Ok(Campaign {
        meta: lists.meta,
        mutations: lists.mutations,
        lines: lists.lines,
        test_names: lists.test_names,
        kinds: lists.kinds,
        expect: lists.expect,
        tags: project.tags,
        script,
        report,
        conflicts,
    })
}
