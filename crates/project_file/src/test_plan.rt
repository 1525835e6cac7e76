//! The sections `[test NAME]`.
//!
//! The kind of a test is that of its first line `eq` or `sim`. Its other lines may stand before or behind it; where one does
//! not go with the kind, the later line is bad.
ghost use Rattle.std.specs.Prelude.{◌≡◌, ◌<◌, ◌≤◌, ◌+◌, ◌^◌, ◌&&◌, [], IfOk, OnOk, Some, length, map};
ghost use Rattle.std.specs.List.{list_all};
ghost use Rattle.project_lines.specs.Lines.{args_of, has_line};
ghost use Rattle.project_lines.specs.Words.{are_all, is_among};
ghost use Rattle.project_lines.specs.Checks.{Checks, first_fault};
ghost use Rattle.project_lines.specs.Paths.{count_fault, gather, with_names};
ghost use Rattle.project_file.specs.Projects.{lacks_pass};
ghost use Rattle.project_file.specs.Tests.{all_words, bit_if, expects, files_by, formed_fault, has_kind, is_answer, is_clash, is_eq, is_kind, is_none, is_sim, is_sim_form, is_test_form, known_test_fault, kind_by, kind_in, mask_in, mask_of, plan_of, test_at, test_fault, test_key, test_reads, text_in};

use crate::project::{TestKind, TestPlan};
use crate::values::args_in;
use mcy_base::{Bytes, Text};
use project_lines::{
    ProjectError, ReadFiles, args_of, find_line, has_line, is_among, is_name, is_one_number,
    is_said, key_of, text_of, texts_of,
};
use std::alloc::{AllocError, Global};

/// The keys of tests.
#[derive(Clone, Copy)]
pub enum TestKey {
    Run,
    Eq,
    Sim,
    Pass,
    Fail,
    Expect,
    MaxBatchSize,
}

#[tactic(auto, unfolding(crate::specs::Tests::test_key))]
fn test_key(word: &str) -> Option<TestKey>
    ensures { result ≡ test_key word.now }
{
    match word {
        "run" => Some(TestKey::Run),
        "eq" => Some(TestKey::Eq),
        "sim" => Some(TestKey::Sim),
        "pass" => Some(TestKey::Pass),
        "fail" => Some(TestKey::Fail),
        "expect" => Some(TestKey::Expect),
        "maxbatchsize" => Some(TestKey::MaxBatchSize),
        _ => None,
    }
}

/// Whether the word is one that a test gives.
#[tactic(auto, unfolding(crate::specs::Tests::is_answer))]
fn is_answer(word: &str) -> bool
    ensures { result ≡ is_answer word.now }
{
    matches!(word, "PASS" | "FAIL" | "HANG" | "UNKNOWN")
}

fn are_answers(words: &[&str]) -> bool
    ensures { result ≡ list_all is_answer (map (λ word. word.now) words.now) }
{
    words.iter().all(|word| is_answer(word))
}

/// Whether the words are a module's name and one or more files.
fn is_sim_form(args: &[&str]) -> bool
    ensures { result ≡ is_sim_form (map (λ word. word.now) args.now) }
{
    match args {
        [bench, _, ..] => is_name(bench),
        _ => false,
    }
}

fn is_answer_form(args: &[&str]) -> bool
    ensures { result ≡ are_all is_answer (map (λ word. word.now) args.now) }
{
    !args.is_empty() && are_answers(args)
}

/// Whether the words have the form of the key.
#[tactic(auto, unfolding(crate::specs::Tests::is_test_form))]
fn is_test_form(key: TestKey, args: &[&str]) -> bool
    ensures { result ≡ is_test_form key (map (λ word. word.now) args.now) }
{
    match key {
        TestKey::Run => true,
        TestKey::Eq => args.is_empty(),
        TestKey::Sim => is_sim_form(args),
        TestKey::Pass | TestKey::Fail => !args.is_empty(),
        TestKey::Expect => is_answer_form(args),
        TestKey::MaxBatchSize => is_one_number(args),
    }
}

/// Whether the lines expect this word.
#[tactic(auto, unfolding(crate::specs::Tests::expects))]
fn expects(alloc: Global, word: &str, lines: &[&str]) -> Result<bool, AllocError>
    ensures { IfOk result (λ found. found ≡ expects word.now (map (λ line. line.now) lines.now)) }
{
    Ok(is_among(word, &args_in(alloc, "expect", lines)?))
}

/// Whether the lines have the key and the words this one.
fn is_beside(key: &str, earlier: &[&str], word: &str, args: &[&str]) -> bool
    ensures { result ≡ (has_line key.now (map (λ line. line.now) earlier.now) && is_among word.now (map (λ word. word.now) args.now)) }
{
    has_line(key, earlier) && is_among(word, args)
}

/// Whether the words do not go with the kind that the lines before them give.
#[tactic(auto, unfolding(crate::specs::Tests::is_clash))]
fn is_wrong_answer(args: &[&str], earlier: &[&str]) -> bool
    ensures { result ≡ is_clash TestKey.Expect (map (λ word. word.now) args.now) (map (λ line. line.now) earlier.now) }
{
    is_beside("eq", earlier, "HANG", args) || is_beside("sim", earlier, "UNKNOWN", args)
}

/// Whether a key does not go with the lines before it.
#[tactic(auto, unfolding(crate::specs::Tests::is_clash))]
fn is_clash(
    alloc: Global,
    key: TestKey,
    args: &[&str],
    earlier: &[&str],
) -> Result<bool, AllocError>
    ensures { IfOk result (λ clash. clash ≡ is_clash key (map (λ word. word.now) args.now) (map (λ line. line.now) earlier.now)) }
{
    match key {
        TestKey::Eq => {
            let has_text = has_line("pass", earlier) || has_line("fail", earlier);
            Ok(has_text || expects(alloc, "HANG", earlier)?)
        }
        TestKey::Sim => expects(alloc, "UNKNOWN", earlier),
        TestKey::Pass | TestKey::Fail => Ok(has_line("eq", earlier)),
        TestKey::Expect => Ok(is_wrong_answer(args, earlier)),
        TestKey::Run | TestKey::MaxBatchSize => Ok(false),
    }
}

fn is_kind(key: TestKey) -> bool
    ensures { result ≡ is_kind key }
{
    matches!(key, TestKey::Eq | TestKey::Sim)
}

/// Whether the test of these lines has a kind.
pub fn has_kind(lines: &[&str]) -> bool
    ensures { result ≡ has_kind (map (λ line. line.now) lines.now) }
{
    has_line("eq", lines) || has_line("sim", lines)
}

/// Whether it is a sim test without a text by which it passes.
pub fn lacks_pass(lines: &[&str]) -> bool
    ensures { result ≡ lacks_pass (map (λ line. line.now) lines.now) }
{
    has_line("sim", lines) && !has_line("pass", lines)
}

/// The files of a line of this key.
fn files_by<'t, 'a>(key: TestKey, args: &'t [&'a str]) -> &'t [&'a str]
    ensures { map (λ file. file.now) result.now ≡ files_by (Some key) (map (λ word. word.now) args.now) }
{
    match (key, args) {
        (TestKey::Sim, [_, files @ ..]) => files,
        _ => &[],
    }
}

/// Checks a line of a known key and of its form, and reads its files.
fn check_formed<'a>(
    alloc: Global,
    read: &mut ReadFiles<'a>,
    earlier: &[&str],
    number: u32,
    key: TestKey,
    line: &'a str,
) -> Result<(), ProjectError>
    ensures fault { Checks result (formed_fault read.old key (map (λ line. line.now) earlier.now) number line.now) }
    ensures read { OnOk result (read.new ≡ with_names read.old (files_by (Some key) (args_of line.now))) }
{
    let args = args_of(alloc, line)?;
    if is_kind(key) && has_kind(earlier) {
        return Err(ProjectError::Repeated(number));
    }
    if is_clash(alloc, key, &args, earlier)? {
        return Err(ProjectError::BadLine(number));
    }
    if has_line(key_of(line), earlier) {
        return Err(ProjectError::Repeated(number));
    }
    read.add_all(number, files_by(key, &args))
}

/// Checks a line behind the lines before it, and reads its files.
#[tactic(auto, unfolding(crate::specs::Tests::test_at, crate::specs::Tests::test_reads, project_lines::specs::Paths::with_names))]
fn check_line<'a>(
    alloc: Global,
    read: &mut ReadFiles<'a>,
    earlier: &[&str],
    number: u32,
    line: &'a str,
) -> Result<(), ProjectError>
    ensures fault { Checks result (test_at read.old (map (λ line. line.now) earlier.now) number line.now) }
    ensures read { OnOk result (read.new ≡ with_names read.old (test_reads line.now)) }
{
    if !is_said(line) {
        return Ok(());
    }
    let Some(key) = test_key(key_of(line)) else {
        return Err(ProjectError::UnknownKey(number));
    };
    if matches!(key, TestKey::Run) {
        return Err(ProjectError::UnsupportedCommand(number));
    }
    if !is_test_form(key, &args_of(alloc, line)?) {
        return Err(ProjectError::BadLine(number));
    }
    check_formed(alloc, read, earlier, number, key, line)
}

/// Checks the lines of the section, which are numbered from here on, and reads their files.
#[tactic(auto, unfolding(project_lines::specs::Paths::with_names, project_lines::specs::Paths::gather))]
pub fn check_test<'a>(
    alloc: Global,
    read: &mut ReadFiles<'a>,
    number: u32,
    lines: &[&'a str],
) -> Result<(), ProjectError>
    requires { number + length lines.now < 2 ^ 32 }
    ensures fault { Checks result (first_fault (test_fault read.old) [] number (map (λ line. line.now) lines.now)) }
    ensures read { OnOk result (read.new ≡ with_names read.old (gather test_reads (map (λ line. line.now) lines.now))) }
{
    for (i, line) in lines.iter().enumerate() {
        check_line(alloc, read, &lines[..i], number + i as u32, line)?;
    }
    Ok(())
}

fn bit_if(holds: bool, bit: u32) -> u32
    ensures value { result ≡ bit_if holds bit }
    ensures bound { result ≤ bit }
{
    if holds { bit } else { 0 }
}

/// The mask of the words: PASS in bit 0, FAIL in bit 1, HANG in bit 2, UNKNOWN in bit 3.
#[tactic(auto, unfolding(crate::specs::Tests::mask_of))]
fn mask_of(words: &[&str]) -> u32
    ensures { result ≡ mask_of (map (λ word. word.now) words.now) }
{
    let pass = bit_if(is_among("PASS", words), 1);
    let fail = bit_if(is_among("FAIL", words), 2);
    let hang = bit_if(is_among("HANG", words), 4);
    let unknown = bit_if(is_among("UNKNOWN", words), 8);
    pass + (fail + (hang + unknown))
}

/// All words of the kind.
fn all_words(is_sim: bool) -> u32
    ensures { result ≡ all_words is_sim }
{
    if is_sim { 7 } else { 11 }
}

/// The words that are expected: those on a line, else all of the kind.
#[tactic(auto, unfolding(crate::specs::Tests::mask_in))]
fn mask_in(alloc: Global, lines: &[&str]) -> Result<u32, AllocError>
    ensures { IfOk result (λ mask. mask ≡ mask_in (map (λ line. line.now) lines.now)) }
{
    match find_line("expect", lines) {
        Some(line) => Ok(mask_of(&args_of(alloc, line)?)),
        None => Ok(all_words(has_line("sim", lines))),
    }
}

/// The text behind a key, or none.
#[tactic(auto, unfolding(crate::specs::Tests::text_in))]
fn text_in(alloc: Global, key: &str, lines: &[&str]) -> Result<Bytes, AllocError>
    ensures { IfOk result (λ text. text ≡ text_in key.now (map (λ line. line.now) lines.now)) }
{
    match find_line(key, lines) {
        Some(line) => Bytes::copy(alloc, text_of(line).as_bytes()),
        None => Bytes::copy(alloc, &[]),
    }
}

/// The kind of a test with these lines, where `line` is its line `sim`.
fn sim_kind(alloc: Global, line: &str, lines: &[&str]) -> Result<TestKind, AllocError>
    ensures { IfOk result (λ kind. kind ≡ kind_by (Some line.now) (map (λ line. line.now) lines.now)) }
{
    let args = args_of(alloc, line)?;
    let bench = args.first().copied().unwrap_or("");
    Ok(TestKind::Sim {
        bench: Text::copy(alloc, bench)?,
        files: texts_of(alloc, files_by(TestKey::Sim, &args))?,
        pass: text_in(alloc, "pass", lines)?,
        fail: text_in(alloc, "fail", lines)?,
    })
}

/// The kind of a test with these lines.
#[tactic(auto, unfolding(crate::specs::Tests::kind_in))]
fn kind_in(alloc: Global, lines: &[&str]) -> Result<TestKind, AllocError>
    ensures { IfOk result (λ kind. kind ≡ kind_in (map (λ line. line.now) lines.now)) }
{
    match find_line("sim", lines) {
        Some(line) => sim_kind(alloc, line, lines),
        None => Ok(TestKind::Eq),
    }
}

/// The test of this name with these lines.
#[tactic(auto, unfolding(crate::specs::Tests::plan_of))]
pub fn plan_of(alloc: Global, name: &str, lines: &[&str]) -> Result<TestPlan, AllocError>
    ensures { IfOk result (λ plan. plan ≡ plan_of name.now (map (λ line. line.now) lines.now)) }
{
    Ok(TestPlan {
        name: Text::copy(alloc, name)?,
        kind: kind_in(alloc, lines)?,
        expect: mask_in(alloc, lines)?,
    })
}
