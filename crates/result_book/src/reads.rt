//! The read tests of a mutation: those that its script asks on the last words, in the order asked, up to the first without a word.
//!
//! The script is asked again and again, on no word first and then on those of the tests that were read so far: it names the next
//! test that it asks. `seen` has the words of the tests that were read.
ghost use Rattle.std.specs.Prelude.{◌≡◌, ◌<◌, IfOk, length};
ghost use Rattle.result_book.specs.Campaigns.{IsFit};
ghost use Rattle.result_book.specs.Reads.{next_read};
ghost use Rattle.result_book.specs.Rows.{answers_of};
ghost use Rattle.result_book.specs.Scripts.{read_answers, words_of};
ghost use Rattle.result_book.specs.States.{IsStateOf};

use crate::answer::Answer;
use crate::campaign::Campaign;
use crate::state::State;
use std::alloc::{AllocError, Global};
use tag_script::{Ask, Results};

/// The next test that is read after those that were seen, where these are the last words.
fn next_read(campaign: &Campaign, last: &Results, seen: &Results) -> Option<Answer>
    ensures { result ≡ next_read campaign.now last.now seen.now }
{
    match campaign.ask_by(seen) {
        Ask::Need(test) => {
            let word = last.any_word(test)?;
            Some(Answer { test, word })
        }
        Ask::Done(_) | Ask::AssertFailed(_) | Ask::Unexpected(_) => None,
    }
}

impl State {
    /// The read tests of a mutation in the order asked, each with its last word.
    pub fn read_answers(
        &self,
        alloc: Global,
        campaign: &Campaign,
        mutation: u32,
    ) -> Result<Vec<Answer>, AllocError>
        requires fit { IsFit campaign.now }
        requires state { IsStateOf campaign.now self.now.rows self.now }
        requires mutation { mutation < length campaign.now.mutations }
        ensures { IfOk result (λ answers. answers.items ≡ read_answers campaign.now (answers_of mutation self.now.rows)) }
    {
        let last = self.results(mutation);
        let mut seen = Results::empty();
        let mut answers = Vec::new(alloc);
        while let Some(answer) = next_read(campaign, &last, &seen) {
            seen = seen.set_word(answer.test, answer.word);
            answers.push(answer)?;
        }
        Ok(answers)
    }

    /// The last words of the read tests of a mutation. It takes no memory.
    pub fn read_words(&self, campaign: &Campaign, mutation: u32) -> Results
        requires fit { IsFit campaign.now }
        requires state { IsStateOf campaign.now self.now.rows self.now }
        requires mutation { mutation < length campaign.now.mutations }
        ensures { result ≡ words_of (read_answers campaign.now (answers_of mutation self.now.rows)) }
    {
        let last = self.results(mutation);
        let mut seen = Results::empty();
        while let Some(answer) = next_read(campaign, &last, &seen) {
            seen = seen.set_word(answer.test, answer.word);
        }
        seen
    }
}
