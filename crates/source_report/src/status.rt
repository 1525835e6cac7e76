//! The text of the status: the lines of the counts, and the project's report.
ghost use Rattle.std.specs.Prelude.{◌≡◌, ◌<◌, ◌^◌, ◌++◌, List, IfOk, OnOk, length, map, string_bytes};
ghost use Rattle.result_book.specs.Campaigns.{IsFit};
ghost use Rattle.result_book.specs.Rows.{groups};
ghost use Rattle.result_book.specs.declared.answer.Answer.{Answer};
ghost use Rattle.result_book.specs.Scripts.{words_of};
ghost use Rattle.result_book.specs.States.{IsStateOf};
ghost use Rattle.source_report.specs.Texts as texts;

use crate::counts::{End, end_count, finished_count, mutation_count, read_words, word_count};
use mcy_base::Bytes;
use report_script::report_text;
use result_book::{Campaign, SIM_KIND, State, TestWord};
use std::alloc::{AllocError, Global};
use tag_script::Results;

/// The status of a campaign, as a text of lines: how many mutations there are and are finished, how often each test
/// gave each word, how many mutations ended with each tag, at an assertion and at a word that is not expected; then what
/// the project's report prints for the counts of tags.
#[tactic(auto, unfolding(crate::specs::Texts::lines))]
pub fn status_text(alloc: Global, campaign: &Campaign, state: &State) -> Result<Bytes, AllocError>
    requires fit { IsFit campaign.now }
    requires state { IsStateOf campaign.now state.now.rows state.now }
    ensures { IfOk result (λ text. text ≡ texts.status_text campaign.now state.now.rows) }
{
    let counts = tag_counts(alloc, campaign, state)?;
    let report = report_text(alloc, &campaign.report, &counts)?;
    let mut text = count_lines(alloc, campaign, state)?;
    text.extend_from_slice(report.as_slice())?;
    Ok(Bytes::from_vec(text))
}

/// The lines of the counts.
fn count_lines(alloc: Global, campaign: &Campaign, state: &State) -> Result<Vec<u8>, AllocError>
    requires fit { IsFit campaign.now }
    requires state { IsStateOf campaign.now state.now.rows state.now }
    ensures { IfOk result (λ text. text.items ≡ texts.count_lines campaign.now (groups campaign.now state.now.rows)) }
{
    let asserts = end_count(campaign, state, End::Assert);
    let unexpected = end_count(campaign, state, End::Word);
    let reads = read_words(alloc, campaign, state)?;
    let mut text = String::new(alloc);
    add_number(
        &mut text,
        "Mutations",
        mutation_count(campaign, state) as usize,
    )?;
    add_number(
        &mut text,
        "Finished",
        finished_count(campaign, state) as usize,
    )?;
    add_tests(&mut text, campaign, &reads)?;
    add_tags(&mut text, campaign, state)?;
    add_number(&mut text, "Asserts", asserts as usize)?;
    add_number(&mut text, "Unexpected", unexpected as usize)?;
    Ok(text.into_bytes())
}

/// On how many mutations the script ended with each tag.
fn tag_counts(alloc: Global, campaign: &Campaign, state: &State) -> Result<Vec<u32>, AllocError>
    requires fit { IsFit campaign.now }
    requires state { IsStateOf campaign.now state.now.rows state.now }
    ensures { IfOk result (λ counts. counts.items ≡ texts.tag_counts campaign.now (groups campaign.now state.now.rows) 0 campaign.now.tags) }
{
    let mut counts = Vec::new(alloc);
    for tag in 0..campaign.tags.as_slice().len() {
        counts.push(end_count(campaign, state, End::Tag(tag_bit(tag))))?;
    }
    Ok(counts)
}

/// Adds a line of a name and a number.
pub fn add_number(text: &mut String, name: &str, number: usize) -> Result<(), AllocError>
    ensures { OnOk result (string_bytes text.new ≡ string_bytes text.old ++ texts.number_line name.now number) }
{
    writeln!(text, "{name}: {number}")
}

/// The name of a word.
pub(crate) fn word_name(word: TestWord) -> &'static str
    ensures { result.now ≡ texts.word_name word }
{
    match word {
        TestWord::Pass => "PASS",
        TestWord::Fail => "FAIL",
        TestWord::Hang => "HANG",
        TestWord::Unknown => "UNKNOWN",
    }
}

/// The word that a kind of test has beside PASS and FAIL.
fn third_word(kind: u32) -> TestWord
    ensures { result ≡ texts.third_word kind }
{
    if kind == SIM_KIND {
        TestWord::Hang
    } else {
        TestWord::Unknown
    }
}

/// Adds the lines of the tests, where these are the words of each mutation's read tests.
fn add_tests(text: &mut String, campaign: &Campaign, reads: &[Results]) -> Result<(), AllocError>
    requires fit { IsFit campaign.now }
    requires few { length reads.now < 2 ^ 32 }
    ensures { (groups : List (List Answer)) → reads.now ≡ map words_of groups → OnOk result (string_bytes text.new ≡ string_bytes text.old
        ++ texts.test_lines groups 0 campaign.now.test_names campaign.now.kinds) }
{
    for (test, name) in campaign.test_names.as_slice().iter().enumerate() {
        let kind = campaign.kinds.as_slice()[test];
        add_test(text, reads, test as u32, name.as_str(), kind)?;
    }
    Ok(())
}

/// Adds the line of a test.
fn add_test(
    text: &mut String,
    reads: &[Results],
    test: u32,
    name: &str,
    kind: u32,
) -> Result<(), AllocError>
    requires test { test < 16 }
    requires few { length reads.now < 2 ^ 32 }
    ensures { (groups : List (List Answer)) → reads.now ≡ map words_of groups → OnOk result (string_bytes text.new ≡ string_bytes text.old
        ++ texts.test_line groups test name.now kind) }
{
    let third = third_word(kind);
    let passed = word_count(reads, test, TestWord::Pass);
    let failed = word_count(reads, test, TestWord::Fail);
    let others = word_count(reads, test, third);
    let third = word_name(third);
    writeln!(
        text,
        "Test {name}: PASS {passed} FAIL {failed} {third} {others}"
    )
}

/// The bit of a tag.
#[tactic(auto, using(std::proofs::lemmas::Nat::one_shl))]
pub(crate) fn tag_bit(tag: usize) -> u32
    requires { tag < 32 }
    ensures { result ≡ 2 ^ tag }
{
    1 << tag
}

/// Adds the lines of the tags.
fn add_tags(text: &mut String, campaign: &Campaign, state: &State) -> Result<(), AllocError>
    requires fit { IsFit campaign.now }
    requires state { IsStateOf campaign.now state.now.rows state.now }
    ensures { OnOk result (string_bytes text.new ≡ string_bytes text.old
        ++ texts.tag_lines campaign.now (groups campaign.now state.now.rows) 0 campaign.now.tags) }
{
    for (tag, name) in campaign.tags.as_slice().iter().enumerate() {
        let count = end_count(campaign, state, End::Tag(tag_bit(tag)));
        add_tag(text, name.as_str(), count)?;
    }
    Ok(())
}

/// Adds the line of a tag.
fn add_tag(text: &mut String, name: &str, count: u32) -> Result<(), AllocError>
    ensures { OnOk result (string_bytes text.new ≡ string_bytes text.old ++ texts.tag_line name.now count) }
{
    writeln!(text, "Tag {name}: {count}")
}
