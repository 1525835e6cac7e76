//! The check of a kept book against its campaign, which gives the state of a book that is well-formed and
//! names the first difference of one that is not.
//!
//! What comes first in a book is tested first: its meta, its mutations, then its rows one by one. A book of the first format is
//! taken as it is: its meta may differ from the campaign's in the number of the format, and its rows go into the state with the bounds
//! that they get in the second.
ghost use Rattle.std.specs.Prelude.{◌≡◌, ◌≢◌, ◌↔◌, ◌<◌, ◌≤◌, ◌^◌, [], Some, Bool, false, IsTrue, IfOk, IfErr, OnOk, MatchOption, length, slice_get, take};
ghost use Rattle.mcy_keeper.specs.Books.{is_first};
ghost use Rattle.result_book.specs.declared.check.BookError.TheVariants.{Memory};
ghost use Rattle.result_book.specs.BookFaults.{DifferFirst, IsAsked, IsMarked, IsOnce, IsPlaced, IsRefused, IsRowFault, IsTwice, derived_bound};
ghost use Rattle.result_book.specs.Campaigns.{IsFit};
ghost use Rattle.result_book.specs.Rows.{IsRowIn, IsWellFormed, history, meta_in_second, second_row};
ghost use Rattle.result_book.specs.States.{IsStateOf};

use crate::bounds::is_given_up;
use crate::campaign::Campaign;
use crate::rounds::{MAX_LIMIT, is_round};
use crate::script::{mark, tags};
use crate::state::State;
use mcy_base::Bytes;
use mcy_keeper::{Book, Entry};
use std::alloc::{AllocError, Global};

/// What is wrong with a row of a book. The first that fits, in this order, is told.
#[derive(Clone, Copy, Debug, PartialEq, Eq)]
pub enum RowFault {
    /// Its number is not its place, which is this.
    Seq(u32),
    /// There is no such mutation.
    NoMutation,
    /// There is no such test.
    NoTest,
    /// An earlier row is of the same mutation and test, and no further one may stand: the book is of the first format, or the last
    /// of them is not UNKNOWN, or its bound is not below this row's.
    Twice,
    /// The test is neither read on the mutation's earlier rows nor the next that the script needs.
    NotAsked,
    /// The word is not one of its kind of test.
    BadWord,
    /// The mark is not that of the script after this row, which is this.
    Mark(u32),
    /// The tags are not those of the script after this row, which are these.
    Tags(u32),
    /// The bound of the first row of its mutation and test is not this one; or that of a later row is not round, or above this one,
    /// the greatest limit.
    Bound(u32),
}

/// Why a kept book is refused.
#[derive(Drop)]
pub enum BookError {
    /// The first item of its meta that differs: the place, what is kept, and what the campaign has. The number of the first format
    /// does not.
    Meta(u32, Option<Bytes>, Option<Bytes>),
    /// The first of its mutations that differs, in the same way.
    Mutation(u32, Option<Bytes>, Option<Bytes>),
    /// The first row that has a fault.
    Row(Entry, RowFault),
    /// A book with no meta has so many mutations and rows. `check_book` never finds this.
    Stray(u32, u32),
    /// There was no memory.
    Memory,
}

impl From<AllocError> for BookError {
    ghost from_gives = { λ _ e. e ≡ Memory };

    fn from(_: AllocError) -> BookError {
        BookError::Memory
    }
}

/// Where a kept list differs from the derived one, and what each has there.
#[derive(Drop)]
struct Difference {
    place: u32,
    old: Option<Bytes>,
    new: Option<Bytes>,
}

/// Whether the list has this item at this place.
fn has_item(list: &[Bytes], place: usize, item: &[u8]) -> bool
    ensures { IsTrue result ↔ (slice_get list.now place ≡ Some item.now) }
{
    match list.get(place) {
        Some(found) => found.as_slice() == item,
        None => false,
    }
}

/// The first place where the lists differ.
fn first_difference(kept: &[Bytes], derived: &[Bytes]) -> Option<usize>
    ensures within { MatchOption result (kept.now ≡ derived.now) (λ place. place ≤ length derived.now) }
    ensures same { MatchOption result (kept.now ≡ derived.now) (λ place. take place kept.now ≡ take place derived.now) }
    ensures differ { MatchOption result (kept.now ≡ derived.now) (λ place. slice_get kept.now place ≢ slice_get derived.now place) }
{
    for (place, item) in derived.iter().enumerate() {
        if !has_item(kept, place, item.as_slice()) {
            return Some(place);
        }
    }
    if derived.len() < kept.len() {
        Some(derived.len())
    } else {
        None
    }
}

/// A copy of the list's item at this place, if it has one.
fn copy_at(alloc: Global, list: &[Bytes], place: usize) -> Result<Option<Bytes>, AllocError>
    ensures { IfOk result (λ copy. copy ≡ slice_get list.now place) }
{
    match list.get(place) {
        Some(item) => Ok(Some(Bytes::copy(alloc, item.as_slice())?)),
        None => Ok(None),
    }
}

/// How the kept list differs from the derived one, if it does.
fn compare(
    alloc: Global,
    kept: &[Bytes],
    derived: &[Bytes],
) -> Result<Option<Difference>, AllocError>
    requires { length derived.now < 2 ^ 31 }
    ensures { IfOk result (λ found. MatchOption found (kept.now ≡ derived.now) (λ d. DifferFirst kept.now derived.now d.place d.old d.new)) }
{
    match first_difference(kept, derived) {
        None => Ok(None),
        Some(place) => Ok(Some(Difference {
            place: place as u32,
            old: copy_at(alloc, kept, place)?,
            new: copy_at(alloc, derived, place)?,
        })),
    }
}

/// How the book's meta differs from the campaign's, if it does in more than the number of the first format.
fn meta_difference(
    alloc: Global,
    campaign: &Campaign,
    book: &Book,
) -> Result<Option<Difference>, AllocError>
    requires fit { IsFit campaign.now }
    requires few_items { length campaign.now.meta < 2 ^ 31 }
    ensures { IfOk result (λ found. MatchOption found (meta_in_second book.now.meta ≡ campaign.now.meta) (λ d. DifferFirst (meta_in_second book.now.meta) campaign.now.meta d.place d.old d.new)) }
{
    let kept = book.meta.as_slice();
    let derived = campaign.meta.as_slice();
    if !book.is_first() {
        return compare(alloc, kept, derived);
    }
    match compare(alloc, &kept[1..], &derived[1..])? {
        None => Ok(None),
        Some(found) => Ok(Some(Difference {
            place: found.place + 1,
            old: found.old,
            new: found.new,
        })),
    }
}

/// What is wrong with the number, the mutation and the test of a row after those of the state, if anything is.
fn place_fault(campaign: &Campaign, state: &State, row: &Entry) -> Option<RowFault>
    requires fit { IsFit campaign.now }
    requires state { IsStateOf campaign.now state.now.rows state.now }
    ensures { (first : Bool) → MatchOption result (IsPlaced campaign.now state.now.rows row.now) (IsRowFault first campaign.now state.now.rows row.now) }
{
    if row.seq != state.len() {
        return Some(RowFault::Seq(state.len()));
    }
    if row.mutation as usize >= campaign.mutations.as_slice().len() {
        return Some(RowFault::NoMutation);
    }
    if row.test as usize >= campaign.kinds.as_slice().len() {
        return Some(RowFault::NoTest);
    }
    None
}

/// Whether the pair of a placed row has an earlier one and no further one may stand.
fn is_twice(campaign: &Campaign, state: &State, first: bool, row: &Entry) -> bool
    requires fit { IsFit campaign.now }
    requires state { IsStateOf campaign.now state.now.rows state.now }
    requires placed { IsPlaced campaign.now state.now.rows row.now }
    ensures twice { IsTrue result → IsTwice first state.now.rows row.now }
    ensures once { result ≡ false → IsOnce first state.now.rows row.now }
{
    match state.results(row.mutation).word(row.test) {
        None => false,
        Some(_) if first => true,
        Some(word) => !is_given_up(row.bound, word, state.bound(row.mutation, row.test)),
    }
}

/// What is wrong with the pair of a placed row, if anything is.
fn pair_fault(campaign: &Campaign, state: &State, first: bool, row: &Entry) -> Option<RowFault>
    requires fit { IsFit campaign.now }
    requires state { IsStateOf campaign.now state.now.rows state.now }
    requires placed { IsPlaced campaign.now state.now.rows row.now }
    ensures { MatchOption result (IsAsked first campaign.now state.now.rows row.now) (IsRowFault first campaign.now state.now.rows row.now) }
{
    if is_twice(campaign, state, first, row) {
        return Some(RowFault::Twice);
    }
    if !state.asks_for(campaign, row.mutation, row.test) {
        return Some(RowFault::NotAsked);
    }
    None
}

/// What is wrong with the word, the mark and the tags of a row that is asked for, if anything is.
fn word_fault(campaign: &Campaign, state: &State, first: bool, row: &Entry) -> Option<RowFault>
    requires fit { IsFit campaign.now }
    requires state { IsStateOf campaign.now state.now.rows state.now }
    requires asked { IsAsked first campaign.now state.now.rows row.now }
    ensures { MatchOption result (IsMarked first campaign.now state.now.rows row.now) (IsRowFault first campaign.now state.now.rows row.now) }
{
    if !campaign.has_word(row.test, row.word) {
        return Some(RowFault::BadWord);
    }
    let ask = state.ask_with(campaign, row.mutation, row.test, row.word);
    if row.mark != mark(ask) {
        return Some(RowFault::Mark(mark(ask)));
    }
    if row.tags != tags(ask) {
        return Some(RowFault::Tags(tags(ask)));
    }
    None
}

/// The bound of a pair's first row, in a book that is of the first format or not.
fn derived_bound(campaign: &Campaign, first: bool, test: u32) -> u32
    ensures { result ≡ derived_bound first campaign.now test }
{
    if first { 0 } else { campaign.first_bound(test) }
}

/// What is wrong with the bound of a row that is right otherwise, if anything is.
fn bound_fault(campaign: &Campaign, state: &State, first: bool, row: &Entry) -> Option<RowFault>
    requires fit { IsFit campaign.now }
    requires state { IsStateOf campaign.now state.now.rows state.now }
    requires marked { IsMarked first campaign.now state.now.rows row.now }
    ensures { MatchOption result (IsRowIn first campaign.now state.now.rows row.now) (IsRowFault first campaign.now state.now.rows row.now) }
{
    if state.results(row.mutation).word(row.test).is_some() {
        if is_round(row.bound) && row.bound <= MAX_LIMIT {
            return None;
        }
        return Some(RowFault::Bound(MAX_LIMIT));
    }
    let derived = derived_bound(campaign, first, row.test);
    if row.bound == derived {
        None
    } else {
        Some(RowFault::Bound(derived))
    }
}

/// What is wrong with a row after those of the state, if anything is, in a book that is of the first format or not.
fn row_fault(campaign: &Campaign, state: &State, first: bool, row: &Entry) -> Option<RowFault>
    requires fit { IsFit campaign.now }
    requires state { IsStateOf campaign.now state.now.rows state.now }
    ensures { MatchOption result (IsRowIn first campaign.now state.now.rows row.now) (IsRowFault first campaign.now state.now.rows row.now) }
{
    if let Some(fault) = place_fault(campaign, state, row) {
        return Some(fault);
    }
    if let Some(fault) = pair_fault(campaign, state, first, row) {
        return Some(fault);
    }
    if let Some(fault) = word_fault(campaign, state, first, row) {
        return Some(fault);
    }
    bound_fault(campaign, state, first, row)
}

/// The row as the state has it: that of a book of the first format with its bound in the second.
fn second_row(campaign: &Campaign, first: bool, row: &Entry) -> Entry
    ensures { result ≡ second_row first campaign.now row.now }
{
    if first {
        Entry {
            bound: campaign.bound_of(row),
            ..*row
        }
    } else {
        *row
    }
}

/// Checks the rows of a book whose meta and mutations are the campaign's.
fn check_rows(alloc: Global, campaign: &Campaign, book: &Book) -> Result<State, BookError>
    requires fit { IsFit campaign.now }
    requires meta { meta_in_second book.now.meta ≡ campaign.now.meta }
    requires mutations { book.now.mutations ≡ campaign.now.mutations }
    ensures form { OnOk result (IsWellFormed campaign.now book.now) }
    ensures state { IfOk result (IsStateOf campaign.now (history campaign.now book.now).journal) }
    ensures refused { IfErr result (IsRefused campaign.now book.now) }
{
    let first = book.is_first();
    let mut state = State::new(alloc, campaign)?;
    for row in book.journal.as_slice() {
        if let Some(fault) = row_fault(campaign, &state, first, row) {
            return Err(BookError::Row(*row, fault));
        }
        state.reserve(1)?;
        state.add(campaign, &second_row(campaign, first, row));
    }
    Ok(state)
}

/// The state of a kept book that has begun, where the book is well-formed for the campaign: that of its history.
pub fn check_book(alloc: Global, campaign: &Campaign, book: &Book) -> Result<State, BookError>
    requires fit { IsFit campaign.now }
    requires few_items { length campaign.now.meta < 2 ^ 31 }
    requires begun { book.now.meta ≢ [] }
    ensures form { OnOk result (IsWellFormed campaign.now book.now) }
    ensures state { IfOk result (IsStateOf campaign.now (history campaign.now book.now).journal) }
    ensures refused { IfErr result (IsRefused campaign.now book.now) }
{
    if let Some(found) = meta_difference(alloc, campaign, book)? {
        return Err(BookError::Meta(found.place, found.old, found.new));
    }
    let mutations = campaign.mutations.as_slice();
    if let Some(found) = compare(alloc, book.mutations.as_slice(), mutations)? {
        return Err(BookError::Mutation(found.place, found.old, found.new));
    }
    check_rows(alloc, campaign, book)
}
