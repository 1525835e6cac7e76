//! The sections of a file, and what is looked up among them.
ghost use Rattle.std.specs.Prelude.{◌≡◌, ◌<◌, ◌+◌, ◌-◌, ◌^◌, ◌≤◌, ◌++◌, IfOk, OnOk, length, map, option_map};
ghost use Rattle.project_lines.specs.Sections.{find_part, has_header, is_same_header, is_test, lead, lines_in, name_in, parts_of, plain_title, section_at, seen, tests_in, title_of};

use crate::lines::{behind_key, from_word, header_of, key_of};
use crate::section::{Section, Title};
use crate::words::is_name;
use std::alloc::{AllocError, Global};

/// The lines in front of the first header.
#[tactic(auto, unfolding(crate::specs::Sections::lead))]
pub fn lead<'t, 'a>(lines: &'t [&'a str]) -> &'t [&'a str]
    ensures value { map (λ line. line.now) result.now ≡ lead (map (λ line. line.now) lines.now) }
    ensures shorter { length result.now ≤ length lines.now }
{
    for (i, line) in lines.iter().enumerate() {
        if header_of(line).is_some() {
            return &lines[..i];
        }
    }
    lines
}

/// Adds the section that a line begins, where it is a header.
#[tactic(auto, unfolding(crate::specs::Sections::section_at))]
fn push_section<'t, 'a>(
    sections: &mut Vec<Section<'t, 'a>>,
    number: u32,
    line: &'a str,
    more: &'t [&'a str],
) -> Result<(), AllocError>
    requires { number + 1 + length more.now < 2 ^ 32 }
    ensures { OnOk result (map seen sections.new.items ≡ map seen sections.old.items ++ section_at number line.now (map (λ line. line.now) more.now)) }
{
    if let Some(header) = header_of(line) {
        sections.push(Section {
            number,
            header,
            lines: lead(more),
        })?;
    }
    Ok(())
}

/// The sections of the lines of a file.
#[tactic(auto, unfolding(crate::specs::Sections::parts_of))]
pub fn all_sections<'t, 'a>(
    alloc: Global,
    lines: &'t [&'a str],
) -> Result<Vec<Section<'t, 'a>>, AllocError>
    requires { length lines.now < 2 ^ 32 - 1 }
    ensures { IfOk result (λ all. map seen all.items ≡ parts_of 1 (map (λ line. line.now) lines.now)) }
{
    let mut sections = Vec::new(alloc);
    for (i, line) in lines.iter().enumerate() {
        push_section(&mut sections, i as u32 + 1, line, &lines[i + 1..])?;
    }
    Ok(sections)
}

fn plain_title(word: &str) -> Option<Title>
    ensures { result ≡ plain_title word.now }
{
    match word {
        "options" => Some(Title::Options),
        "script" => Some(Title::Script),
        "files" => Some(Title::Files),
        "logic" => Some(Title::Logic),
        "report" => Some(Title::Report),
        _ => None,
    }
}

/// The name in the header of a test.
pub fn name_in(header: &str) -> &str
    ensures { result.now ≡ name_in header.now }
{
    key_of(behind_key(header))
}

/// The title of a header, where it is a known one.
#[tactic(auto, unfolding(crate::specs::Sections::title_of))]
pub fn title_of(header: &str) -> Option<Title>
    ensures { result ≡ title_of header.now }
{
    if !key_of(behind_key(behind_key(header))).is_empty() {
        return None;
    }
    let name = name_in(header);
    if name.is_empty() {
        return plain_title(key_of(header));
    }
    if key_of(header) == "test" && is_name(name) {
        Some(Title::Test)
    } else {
        None
    }
}

fn is_same_header(other: &str, header: &str) -> bool
    ensures { result ≡ is_same_header other.now header.now }
{
    key_of(other) == key_of(header) && name_in(other) == name_in(header)
}

/// Whether one of the sections has this header.
#[tactic(auto, unfolding(crate::specs::Sections::has_header))]
pub fn has_header(header: &str, sections: &[Section<'_, '_>]) -> bool
    ensures { result ≡ has_header header.now (map seen sections.now) }
{
    for section in sections {
        if is_same_header(section.header, header) {
            return true;
        }
    }
    false
}

/// The first section whose header begins with this word.
#[tactic(auto, unfolding(crate::specs::Sections::find_part))]
pub fn find_section<'t, 'a>(word: &str, sections: &[Section<'t, 'a>]) -> Option<Section<'t, 'a>>
    ensures { option_map seen result ≡ find_part word.now (map seen sections.now) }
{
    for section in sections {
        if key_of(section.header) == word {
            return Some(*section);
        }
    }
    None
}

/// Its lines, or none.
#[tactic(auto, unfolding(crate::specs::Sections::lines_in, crate::specs::Sections::find_part))]
pub fn lines_in<'t, 'a>(word: &str, sections: &[Section<'t, 'a>]) -> &'t [&'a str]
    ensures { map (λ line. line.now) result.now ≡ lines_in word.now (map seen sections.now) }
{
    for section in sections {
        if key_of(section.header) == word {
            return section.lines;
        }
    }
    &[]
}

/// Whether it is the section of a test.
#[tactic(auto, unfolding(crate::specs::Sections::is_test))]
fn is_test(section: &Section<'_, '_>) -> bool
    ensures { result ≡ is_test (seen section.now) }
{
    key_of(section.header) == "test"
}

/// The sections of tests.
#[tactic(auto, unfolding(crate::specs::Sections::tests_in))]
pub fn tests_in<'t, 'a>(
    alloc: Global,
    sections: &[Section<'t, 'a>],
) -> Result<Vec<Section<'t, 'a>>, AllocError>
    ensures { IfOk result (λ tests. map seen tests.items ≡ tests_in (map seen sections.now)) }
{
    let mut tests = Vec::new(alloc);
    for section in sections {
        if is_test(section) {
            tests.push(*section)?;
        }
    }
    Ok(tests)
}
