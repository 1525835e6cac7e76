//! A busy slot: what was asked, and the job until it has a word.
ghost use Rattle.std.specs.Prelude.{◌≡◌, ◌<◌, None, OnErr, OnOk, MatchOption, slice_get};
ghost use Rattle.campaign_core.specs.Seats.{IsJobOf, asked_of, left_of, word_of};
ghost use Rattle.campaign_core.specs.Stages.{answered_at, raw_stage};
ghost use Rattle.campaign_core.specs.Testers.{IsSame, IsWordIn};

use crate::tester::Tester;
use result_book::Want;
use std::alloc::AllocError;

/// A test under way in a slot.
#[derive(Drop)]
pub(crate) struct Seat<J> {
    pub(crate) mutation: u32,
    pub(crate) want: Want,
    pub(crate) work: Work<J>,
}

/// How far a test came.
#[derive(Drop)]
pub(crate) enum Work<J> {
    /// Its job has no word yet.
    Going(J),
    /// Its job gave this word, and its memory is given back.
    Told(u32),
}

/// A word that waits for its row.
#[derive(Clone, Copy, Debug, PartialEq, Eq)]
pub(crate) struct Answered {
    pub(crate) mutation: u32,
    pub(crate) want: Want,
    pub(crate) word: u32,
}

/// What can happen in a slot.
#[derive(Clone, Copy, Debug, PartialEq, Eq)]
pub(crate) enum Stage {
    /// There is no such slot.
    Absent,
    /// A test may be started.
    Free,
    /// The job may take a turn.
    Going,
    /// The word may become a row.
    Told,
}

/// How a slot stands.
pub(crate) fn stage_at<J>(slots: &[Option<Seat<J>>], slot: u32) -> Stage
    ensures { result ≡ raw_stage (slice_get slots.now slot) }
{
    match slots.get(slot as usize) {
        None => Stage::Absent,
        Some(None) => Stage::Free,
        Some(Some(seat)) => match &seat.work {
            Work::Going(_) => Stage::Going,
            Work::Told(_) => Stage::Told,
        },
    }
}

/// The word of a slot's job, if it has one.
pub(crate) fn told_at<J>(slots: &[Option<Seat<J>>], slot: u32) -> Option<Answered>
    ensures { result ≡ answered_at (slice_get slots.now slot) }
{
    match slots.get(slot as usize) {
        None => None,
        Some(None) => None,
        Some(Some(seat)) => match &seat.work {
            Work::Going(_) => None,
            Work::Told(word) => Some(Answered {
                mutation: seat.mutation,
                want: seat.want,
                word: *word,
            }),
        },
    }
}

/// Lets the job of a seat take a turn. Its memory is given back once it gave a word.
pub(crate) fn take_turn<T: Tester>(
    tester: &mut T,
    seat: &mut Seat<T::Job>,
) -> Result<(), AllocError>
    requires going { word_of seat.old.work ≡ None }
    requires job { (job : T.Job) → seat.old.work ≡ Work.Going job → IsJobOf (T.has tester.old) T.asked T.word seat.old job }
    ensures pair { asked_of seat.new ≡ asked_of seat.old }
    ensures told { OnOk result (MatchOption (word_of seat.new.work) (left_of T.left seat.new.work < left_of T.left seat.old.work) (λ word. T.gives tester.old (asked_of seat.old) word × IsWordIn (T.kinds tester.old) seat.old.want.test word)) }
    ensures err { OnErr result (word_of seat.new.work ≡ None) }
    ensures job { (job : T.Job) → seat.new.work ≡ Work.Going job → IsJobOf (T.has tester.new) T.asked T.word seat.new job }
    ensures same { IsSame (T.mutations tester.old) (T.mutations tester.new) (T.kinds tester.old) (T.kinds tester.new) (T.gives tester.old) (T.gives tester.new) (T.most tester.old) (T.most tester.new) }
    ensures others { (other : T.Job) → T.has tester.old other → T.has tester.new other }
{
    let Work::Going(job) = &mut seat.work else {
        return Ok(());
    };
    if let Some(word) = tester.turn(job)? {
        seat.work = Work::Told(word);
    }
    Ok(())
}
