//! The list of the mutations, line by line.
ghost use Rattle.std.specs.Prelude.{◌≡◌, ◌<◌, ◌≤◌, ◌++◌, [], length, All, IfOk, OnOk};
ghost use Rattle.result_book.specs.Campaigns.{IsFit};
ghost use Rattle.result_book.specs.Rows.{read_on};
ghost use Rattle.result_book.specs.States.{IsStateOf};
ghost use Rattle.source_report.specs.Lists as lists;

use crate::status::{tag_bit, word_name};
use mcy_base::{Bytes, TextList};
use result_book::{Answer, Campaign, State, TestWord, has_tag};
use std::alloc::{AllocError, Global};
use tag_script::Ask;

/// The mutations of a campaign, a line each: its number, counted from 1, its site, its read tests in the order asked with their last
/// words, and its tags, or how else its script stands.
pub fn list_text(alloc: Global, campaign: &Campaign, state: &State) -> Result<Bytes, AllocError>
    requires fit { IsFit campaign.now }
    requires state { IsStateOf campaign.now state.now.rows state.now }
    ensures { IfOk result (λ text. text ≡ lists.list_text campaign.now state.now.rows) }
{
    let sites = campaign.mutations.as_slice();
    let mut text = Vec::new(alloc);
    for (number, site) in sites.iter().enumerate() {
        add_line(
            alloc,
            &mut text,
            campaign,
            state,
            number as u32,
            site.as_slice(),
        )?;
    }
    Ok(Bytes::from_vec(text))
}

/// Adds the line of a mutation, which is counted from 0, at this site.
fn add_line(
    alloc: Global,
    text: &mut Vec<u8>,
    campaign: &Campaign,
    state: &State,
    mutation: u32,
    site: &[u8],
) -> Result<(), AllocError>
    requires fit { IsFit campaign.now }
    requires state { IsStateOf campaign.now state.now.rows state.now }
    requires mutation { mutation < length campaign.now.mutations }
    ensures { OnOk result (text.new.items ≡ text.old.items ++ lists.list_line campaign.now mutation site.now (read_on campaign.now mutation state.now.rows)) }
{
    let answers = state.read_answers(alloc, campaign, mutation)?;
    let head = format!(in alloc; "{}: ", mutation + 1)?;
    add(text, head.as_bytes())?;
    add(text, site)?;
    add(text, b" [")?;
    add_answers(text, &campaign.test_names, &answers)?;
    add(text, b"]")?;
    add_end(alloc, text, &campaign.tags, state.ask_of(mutation))?;
    add(text, b"\n")
}

/// Adds these bytes.
pub(crate) fn add(text: &mut Vec<u8>, bytes: &[u8]) -> Result<(), AllocError>
    ensures { OnOk result (text.new.items ≡ text.old.items ++ bytes.now) }
{
    text.extend_from_slice(bytes)
}

/// Adds the answers of a mutation, a blank between two.
fn add_answers(text: &mut Vec<u8>, names: &TextList, answers: &[Answer]) -> Result<(), AllocError>
    requires { All (λ answer. answer.test < length names.now) answers.now }
    ensures { OnOk result (text.new.items ≡ text.old.items ++ lists.answers_text [] names.now answers.now) }
{
    let mut before: &[u8] = b"";
    for answer in answers {
        add_answer(text, before, names, answer)?;
        before = b" ";
    }
    Ok(())
}

/// Adds an answer, with these bytes before it.
fn add_answer(
    text: &mut Vec<u8>,
    before: &[u8],
    names: &TextList,
    answer: &Answer,
) -> Result<(), AllocError>
    requires { answer.now.test < length names.now }
    ensures { OnOk result (text.new.items ≡ text.old.items ++ (before.now ++ lists.answer_text names.now answer.now)) }
{
    add(text, before)?;
    add(
        text,
        names.as_slice()[answer.test as usize].as_str().as_bytes(),
    )?;
    add(text, b"=")?;
    add(text, word_text(answer.word).as_bytes())
}

/// The name of the word with this code.
fn word_text(code: u32) -> &'static str
    ensures { result.now ≡ lists.word_text code }
{
    if code == TestWord::Pass.code() {
        word_name(TestWord::Pass)
    } else if code == TestWord::Fail.code() {
        word_name(TestWord::Fail)
    } else if code == TestWord::Hang.code() {
        word_name(TestWord::Hang)
    } else {
        word_name(TestWord::Unknown)
    }
}

/// Adds how a mutation's script stands: the tags with which it ended, or how else it ended, or that it did not.
fn add_end(alloc: Global, text: &mut Vec<u8>, tags: &TextList, ask: Ask) -> Result<(), AllocError>
    requires { length tags.now ≤ 32 }
    ensures { OnOk result (text.new.items ≡ text.old.items ++ lists.end_text tags.now ask) }
{
    match ask {
        Ask::Need(_) => add(text, b" !unfinished"),
        Ask::Done(_) => add_tags(text, tags, ask),
        Ask::AssertFailed(line) => {
            let end = format!(in alloc; " !assert {line}")?;
            add(text, end.as_bytes())
        }
        Ask::Unexpected(_) => add(text, b" !unexpected"),
    }
}

/// Adds the tags with which a script ended.
fn add_tags(text: &mut Vec<u8>, tags: &TextList, ask: Ask) -> Result<(), AllocError>
    requires { length tags.now ≤ 32 }
    ensures { OnOk result (text.new.items ≡ text.old.items ++ lists.tags_text ask 0 tags.now) }
{
    for (tag, name) in tags.as_slice().iter().enumerate() {
        if has_tag(ask, tag_bit(tag)) {
            add(text, b" ")?;
            add(text, name.as_str().as_bytes())?;
        }
    }
    Ok(())
}
