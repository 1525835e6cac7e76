//! How many mutations' tests have a word, and how many mutations' scripts ended in a way.
ghost use Rattle.std.specs.Prelude.{◌≡◌, ◌<◌, ◌^◌, IfOk, count_by, length, map};
ghost use Rattle.result_book.specs.Campaigns.{IsFit};
ghost use Rattle.result_book.specs.Rows.{groups};
ghost use Rattle.result_book.specs.Scripts.{words_of};
ghost use Rattle.tag_script.specs.Outcomes.{word_at};
ghost use Rattle.result_book.specs.States.{IsStateOf};
ghost use Rattle.source_report.specs.Texts.{are_finished, end_count, finished_count, has_faults, is_end, is_word};

use result_book::{Campaign, State, TestWord, has_tag};
use std::alloc::{AllocError, Global};
use tag_script::{Ask, Results};

/// How a mutation's script ended, as far as the status tells it.
#[derive(Clone, Copy, Debug, PartialEq, Eq)]
pub(crate) enum End {
    /// With this tag, which is given by its bit.
    Tag(u32),
    /// At an assertion.
    Assert,
    /// At a word that the project does not expect.
    Word,
}

impl End {
    /// Whether a script that stands so ended in this way.
    pub(crate) fn is_of(self, ask: Ask) -> bool
        ensures { result ≡ is_end self ask }
    {
        match self {
            End::Tag(bit) => has_tag(ask, bit),
            End::Assert => matches!(ask, Ask::AssertFailed(_)),
            End::Word => matches!(ask, Ask::Unexpected(_)),
        }
    }
}

/// Whether a test has this word.
fn is_word(word: TestWord, results: Results, test: u32) -> bool
    requires { test < 16 }
    ensures { result ≡ is_word word (word_at results test) }
{
    match results.word(test) {
        None => false,
        Some(code) => code == word.code(),
    }
}

/// How many mutations there are.
pub(crate) fn mutation_count(campaign: &Campaign, state: &State) -> u32
    requires fit { IsFit campaign.now }
    requires state { IsStateOf campaign.now state.now.rows state.now }
    ensures groups { result ≡ length (groups campaign.now state.now.rows) }
    ensures results { result ≡ length state.now.results }
    ensures asks { result ≡ length state.now.asks }
{
    campaign.mutations.as_slice().len() as u32
}

/// How many mutations are finished.
pub(crate) fn finished_count(campaign: &Campaign, state: &State) -> u32
    requires fit { IsFit campaign.now }
    requires state { IsStateOf campaign.now state.now.rows state.now }
    ensures { result ≡ finished_count campaign.now (groups campaign.now state.now.rows) }
{
    state.finished()
}

/// Whether every mutation is finished.
pub fn are_finished(campaign: &Campaign, state: &State) -> bool
    requires fit { IsFit campaign.now }
    requires state { IsStateOf campaign.now state.now.rows state.now }
    ensures { result ≡ are_finished campaign.now (groups campaign.now state.now.rows) }
{
    finished_count(campaign, state) == mutation_count(campaign, state)
}

/// The last words of the read tests of each mutation.
pub(crate) fn read_words(
    alloc: Global,
    campaign: &Campaign,
    state: &State,
) -> Result<Vec<Results>, AllocError>
    requires fit { IsFit campaign.now }
    requires state { IsStateOf campaign.now state.now.rows state.now }
    ensures { IfOk result (λ reads. reads.items ≡ map words_of (groups campaign.now state.now.rows)) }
{
    let mut reads = Vec::new(alloc);
    for mutation in 0..mutation_count(campaign, state) {
        reads.push(state.read_words(campaign, mutation))?;
    }
    Ok(reads)
}

/// On how many mutations a test has this word, where these are the words of each one's tests.
pub(crate) fn word_count(reads: &[Results], test: u32, word: TestWord) -> u32
    requires test { test < 16 }
    requires few { length reads.now < 2 ^ 32 }
    ensures { result ≡ count_by (λ words. is_word word (word_at words test)) reads.now }
{
    reads
        .iter()
        .filter(|words| is_word(word, **words, test))
        .count() as u32
}

/// How many mutations' scripts ended in this way.
pub(crate) fn end_count(campaign: &Campaign, state: &State, end: End) -> u32
    requires fit { IsFit campaign.now }
    requires state { IsStateOf campaign.now state.now.rows state.now }
    ensures { result ≡ end_count campaign.now (groups campaign.now state.now.rows) end }
{
    let mut count = 0;
    for mutation in 0..mutation_count(campaign, state) {
        if end.is_of(state.ask_of(mutation)) {
            count += 1;
        }
    }
    count
}

/// Whether a script ended at a failed assertion, or at a word that is not expected.
pub fn has_faults(campaign: &Campaign, state: &State) -> bool
    requires fit { IsFit campaign.now }
    requires state { IsStateOf campaign.now state.now.rows state.now }
    ensures { result ≡ has_faults campaign.now (groups campaign.now state.now.rows) }
{
    0 < end_count(campaign, state, End::Assert) || 0 < end_count(campaign, state, End::Word)
}
