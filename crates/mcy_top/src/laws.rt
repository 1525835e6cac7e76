//! What follows from the contract of the one call and its definitions, each law as the contract of a
//! function that does nothing: each refusal comes exactly where its cause holds, a project has one
//! campaign and that one text of each command, and no call that is cut off loses or repeats what was acknowledged.
ghost use Rattle.mcy_keeper.specs.Books.{LeavesSome};
ghost use Rattle.mcy_top.specs.Once.{AnswersAreOne, CampaignsAreOne, FinalTextsAreOne, FinishedBooksMissTheSame, FinishedTextsAreOne};
ghost use Rattle.mcy_top.specs.Exact.{BookRefusalsAreExact, FileRefusalsAreExact, FilesHaveOneCause, RefusedFilesMakeNone, UsageIsExact};
ghost use Rattle.mcy_top.specs.Lives.{LivesAreSafe, PartsAreGood};
ghost use Rattle.mcy_top.specs.Passes.{GoodBooksTellTrue};
ghost use Rattle.mcy_top.specs.Calls.{CallIsALife, SureBookHasAll, UnloadedCallLeavesNothingNew};
ghost use Rattle.mcy_top.specs.Histories.{CallsAreAHistory, CallsAreSafe, DoneCallsTellTrue, RestartsFindBooks};

use campaign_baseline::laws::baselines_are_one;
use mcy_keeper::Keeper;
use sim_words::mutants_tell_the_same;
use tb_once::{benches_have_one_outcome, designs_in_benches};

/// Where the words, the files or the loaded book are a reason to refuse, the call ends with that
/// refusal, unless reading failed or there was no memory. Files are refused for one reason, and then
/// make no campaign.
pub fn refusals_are_exact()
    ensures words { UsageIsExact }
    ensures files { FileRefusalsAreExact }
    ensures book { BookRefusalsAreExact }
    ensures one_cause { FilesHaveOneCause }
    ensures no_campaign { RefusedFilesMakeNone }
{}

/// A project and its source have one campaign. With the pairs that were given up it defines the
/// answers of each mutation, and the text of each command, once.
pub fn campaigns_are_one()
    ensures campaign { CampaignsAreOne }
    ensures answers { AnswersAreOne }
    ensures text { FinalTextsAreOne }
{
    benches_have_one_outcome();
    designs_in_benches();
    mutants_tell_the_same();
    baselines_are_one();
}

/// The text of each command over a finished book, be it the status, the list or the sources, depends on the campaign and the pairs whose
/// last word is UNKNOWN alone: not on the format of the book, not on the order and the bounds of the tests, not on what was run again,
/// and not on where calls were cut off. So does what is missed of that which a command looks at.
pub fn finished_texts_are_the_campaigns()
    ensures texts { FinishedTextsAreOne }
    ensures misses { FinishedBooksMissTheSame }
{
    benches_have_one_outcome();
    designs_in_benches();
    mutants_tell_the_same();
    baselines_are_one();
}

/// Over every list of lives that begins with the empty book, or with a good book of the first format: each book is empty or good and has
/// no pair of mutation and test twice, save given-up pairs under greater limits, nothing that was acknowledged is lost later, and a
/// finished book has the texts that the campaign defines. A good book cut off after any of its rows is good.
pub fn lives_are_safe()
    ensures lives { LivesAreSafe }
    ensures parts { PartsAreGood }
{}

/// In a good book each row PASS of an equivalence test is true of the design whose files the book keeps, and of the mutation whose text it
/// keeps.
pub fn passes_are_true()
    ensures { GoodBooksTellTrue }
{}

/// After a call that has loaded a book, a crash leaves something, and always a book. What the call is sure of
/// is a first part of the keeper's sure book, the longest that is a first part of every book that a crash may
/// leave, as they stand or upgraded, and no such book has more than one entry beyond that one.
pub fn sure_book_has_all<K: Keeper>(before: &K, after: &K)
    ensures covered { SureBookHasAll (K.holds before.now) (K.leaves before.now) (K.leaves after.now) }
    ensures some { K.tells after.now → LeavesSome (K.leaves after.now) }
{}

/// A call that has loaded a book is a life: it begins with a book that a crash could leave before,
/// goes on by changes, and every crash leaves its last book or that with one change more. A call that
/// has loaded no book leaves nothing new.
pub fn call_is_a_life<K: Keeper>(before: &K, after: &K)
    ensures life { CallIsALife (K.holds before.now) (K.leaves before.now) (K.leaves after.now) }
    ensures unloaded { UnloadedCallLeavesNothingNew (K.leaves before.now) (K.leaves after.now) }
{}

/// Over every list of calls on one keeper that begins with the empty book or with a good one of the first format, each of which
/// ended by itself or was cut off at any moment, and whose next call starts from nothing but what the one before may have left: the
/// calls that have loaded a book are lives, these are safe, each `run` that was done has left no test that it aims at and
/// finished its campaign, and each call that was done over a finished book, be it `run`, `status`, `list` or `source`, has
/// written the text that its campaign defines for it. Of a call that ended the law takes what the clause `life` of `mcy_main` says
/// where the keeper tells. A call that was cut off leaves the book after one of its changes, or that with the one change that was
/// under way. So each restart finds a book, empty or good.
pub fn calls_are_a_history<K: Keeper>(_keeper: &K)
    ensures history { CallsAreAHistory K.holds K.leaves }
    ensures safe { CallsAreSafe K.holds K.leaves }
    ensures texts { DoneCallsTellTrue K.holds K.leaves }
    ensures restarts { RestartsFindBooks K.tells K.holds K.leaves }
{}
