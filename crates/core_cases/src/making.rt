//! Campaigns of so many mutations, with a script that asks so many tests on each.
ghost use Rattle.std.specs.Prelude.{◌≡◌, ◌≤◌, IfOk, IfSome, length, true};
ghost use Rattle.report_script.specs.Fits.{report_fits};
ghost use Rattle.tag_script.specs.Fits.{script_fits};
ghost use Rattle.core_cases.specs.Made.{IsMade};

use mcy_base::{Bytes, BytesList, Line, LineList, Text, TextList};
use report_script::{Report, read_report};
use result_book::{Campaign, EQ_KIND, NumberList, PlaceList};
use std::alloc::{AllocError, Global};
use tag_script::{Script, read_script};

/// The most mutations and tests of a campaign.
pub(crate) const MAX_MUTATIONS: u32 = 10_000;

pub(crate) const MAX_TESTS: u32 = 16;

/// So many places of mutations.
fn places(alloc: Global, count: u32) -> Result<BytesList, AllocError>
    ensures { IfOk result (λ list. length list ≡ count) }
{
    let mut list = BytesList::from_vec(Vec::new(alloc));
    for _mutation in 0..count {
        list.push(Bytes::copy(alloc, b"inv g cell and_0 A 0 g.v:2")?)?;
    }
    Ok(list)
}

/// The names of so many tests.
fn names(alloc: Global, count: u32) -> Result<TextList, AllocError>
    ensures { IfOk result (λ list. length list ≡ count) }
{
    let mut list = TextList::from_vec(Vec::new(alloc));
    for test in 0..count {
        let name = format!(in alloc; "t{test}")?;
        list.push(Text::copy(alloc, name.as_str())?)?;
    }
    Ok(list)
}

/// A line of a script.
fn line(alloc: Global, number: u32, text: &str) -> Result<Line, AllocError> {
    Ok(Line {
        number,
        text: Text::copy(alloc, text)?,
    })
}

/// The lines of a script that asks all of so many tests where each is FAIL.
fn logic(alloc: Global, count: u32) -> Result<LineList, AllocError> {
    let mut test = String::new(alloc);
    for number in 0..count {
        let word = if number == 0 { "if" } else { " and" };
        write!(test, "{word} result(\"t{number}\") == \"FAIL\"")?;
    }
    write!(test, ":")?;
    let mut lines = LineList::from_vec(Vec::new(alloc));
    lines.push(line(alloc, 1, test.as_str())?)?;
    lines.push(line(alloc, 2, "    tag(\"ALL\")")?)?;
    Ok(lines)
}

/// A campaign of so many mutations, with these tests, the tag and the scripts.
fn campaign_of(
    alloc: Global,
    mutations: u32,
    names: TextList,
    tags: TextList,
    script: Script,
    report: Report,
) -> Result<Campaign, AllocError>
    requires few { mutations ≤ MAX_MUTATIONS }
    requires tests { length names ≤ MAX_TESTS }
    requires tags { length tags ≤ 32 }
    requires script { script_fits (length names) (length tags) script ≡ true }
    requires report { report_fits (length tags) report ≡ true }
    ensures { IfOk result (IsMade mutations (length names)) }
{
    let tests = names.as_slice().len();
    let mut meta = BytesList::from_vec(Vec::new(alloc));
    meta.push(Bytes::copy(alloc, b"2")?)?;
    Ok(Campaign {
        meta,
        mutations: places(alloc, mutations)?,
        lines: PlaceList::from_vec(vec![in alloc; (0, 2); mutations as usize]?),
        test_names: names,
        kinds: NumberList::from_vec(vec![in alloc; EQ_KIND; tests]?),
        expect: NumberList::from_vec(vec![in alloc; 15; tests]?),
        tags,
        script,
        report,
        conflicts: 1,
    })
}

/// The campaign, if its scripts are read.
pub(crate) fn make_campaign(
    alloc: Global,
    mutations: u32,
    tests: u32,
) -> Result<Option<Campaign>, AllocError>
    requires few { mutations ≤ MAX_MUTATIONS }
    requires tests { tests ≤ MAX_TESTS }
    ensures { IfOk result (λ made. IfSome made (IsMade mutations tests)) }
{
    let names = names(alloc, tests)?;
    let mut tags = TextList::from_vec(Vec::new(alloc));
    tags.push(Text::copy(alloc, "ALL")?)?;
    let Ok(script) = read_script(alloc, &logic(alloc, tests)?, &names, &tags) else {
        return Ok(None);
    };
    let none = LineList::from_vec(Vec::new(alloc));
    let Ok(report) = read_report(alloc, &none, &tags) else {
        return Ok(None);
    };
    let made = campaign_of(alloc, mutations, names, tags, script, report)?;
    Ok(Some(made))
}
