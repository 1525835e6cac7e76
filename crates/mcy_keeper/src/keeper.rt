//! Who keeps a book, and what is known of it after each call and after a crash.
//!
//! A keeper `tells` where nobody else writes to its place and the place returns what was written. It
//! then says by `holds` which book it keeps, one at most, and by `leaves` what a crash at this moment may
//! leave: a book, or None where what is left stands for no book. After a call that ended well it is that
//! book alone, after one that failed the book from before or the one from after, whole, and never None.
//! It leaves something always. Where it does not tell, only `is_settled` and `faults` speak.
//!
//! A keeper is settled from a load that ended well until a `begin`, an `append` or an `upgrade` fails; these
//! three calls ask for a settled keeper. `faults` never falls, and rises in each call that answers `Fault`.
//! No call takes an entry away. `upgrade` alone changes rows, and in them the bound alone.
ghost use Rattle.std.specs.Prelude.{◌≡◌, ◌≢◌, ℕ, Bool, false, [], length, Option, Some, IsTrue, IfOk, OnOk, OnErr, IsErrOf};
ghost use Rattle.mcy_base.specs.Causes.{IsCaused};
ghost use Rattle.mcy_keeper.specs.declared.book.Book.{Book as Pages};
ghost use Rattle.mcy_keeper.specs.declared.keeper.KeepError.TheVariants.{Memory};
ghost use Rattle.mcy_keeper.specs.Books.{begun, upgraded, with_entry, IsBlank, IsFirst, IsNext, Keeps, LeavesEither, LeavesNothingNew, LeavesSome, TellsNone, TellsStill};

use crate::book::{Book, BoundList, Entry};
use mcy_base::BytesList;
use std::alloc::AllocError;

/// Why a call of a keeper did not end well.
#[derive(Clone, Copy, Debug, PartialEq, Eq)]
pub enum KeepError {
    /// The place failed, or what it holds is no book. The keeper's count of faults has risen.
    Fault,
    /// There was no memory. What is kept stays as it was.
    Memory,
}

impl From<AllocError> for KeepError {
    ghost from_gives = { λ _ e. e ≡ Memory };

    fn from(_: AllocError) -> KeepError {
        KeepError::Memory
    }
}

/// A place that keeps one book, over crashes too.
pub trait Keeper {
    /// The clauses on books and crashes hold: nobody else writes, and what was written is returned.
    ghost tells: { Self → Type 0 };

    /// The keeper tells that it keeps this book.
    ghost holds: { Self → Pages → Type 0 };

    /// A crash at this moment may leave this: a book, or None where what is left stands for no book.
    ghost leaves: { Self → Option Pages → Type 0 };

    /// Whether a load has ended well, and no write has failed since.
    ghost is_settled: { Self → Bool };

    /// How often a call has failed.
    ghost faults: { Self → ℕ };

    /// Reads the whole book. Where that fails, or what is read is no book, the answer is `Fault`.
    fn load(&mut self) -> Result<Book, KeepError>
        ensures tells { tells self.new → tells self.old }
        ensures answer { tells self.new → IfOk result (Keeps (holds self.new) (leaves self.new)) }
        ensures same { tells self.new → IfOk result (λ found. (was : Pages) → holds self.old was → found ≡ was) }
        ensures allowed { tells self.new → IfOk result (λ found. leaves self.old (Some found)) }
        ensures refused { tells self.new → OnErr result (LeavesNothingNew (leaves self.old) (leaves self.new)) }
        ensures settles { OnOk result (IsTrue (is_settled self.new)) }
        ensures stays { OnErr result (is_settled self.new ≡ is_settled self.old) }
        ensures cause { IsCaused (faults self.old) (faults self.new) (IsErrOf result KeepError.Fault) };

    /// Begins the book, with these two lists and an empty journal. It is in the place as a whole or
    /// not at all. Where the write fails the answer is `Fault`, and only a load can tell which.
    fn begin(&mut self, meta: &BytesList, mutations: &BytesList) -> Result<(), KeepError>
        requires settled { IsTrue (is_settled self.old) }
        requires empty { (was : Pages) → holds self.old was → IsBlank was }
        requires meta { meta.now ≢ [] }
        ensures tells { tells self.new → tells self.old }
        ensures done { tells self.new → OnOk result ((was : Pages) → holds self.old was → Keeps (holds self.new) (leaves self.new) (begun meta.now mutations.now)) }
        ensures either { tells self.new → IsErrOf result KeepError.Fault → (was : Pages) → holds self.old was → LeavesEither (leaves self.new) was (begun meta.now mutations.now) }
        ensures untold { IsErrOf result KeepError.Fault → TellsNone (holds self.new) }
        ensures same { tells self.new → IsErrOf result KeepError.Memory → TellsStill (holds self.old) (holds self.new) }
        ensures refused { tells self.new → IsErrOf result KeepError.Memory → LeavesNothingNew (leaves self.old) (leaves self.new) }
        ensures settles { OnOk result (IsTrue (is_settled self.new)) }
        ensures unsettled { IsErrOf result KeepError.Fault → is_settled self.new ≡ false }
        ensures stays { IsErrOf result KeepError.Memory → IsTrue (is_settled self.new) }
        ensures cause { IsCaused (faults self.old) (faults self.new) (IsErrOf result KeepError.Fault) };

    /// Moves a book of the first format to the second, in which each row has the bound in its place. It is
    /// in the place as a whole or not at all. Where the write fails the answer is `Fault`, and only a load
    /// can tell which.
    fn upgrade(&mut self, bounds: &BoundList) -> Result<(), KeepError>
        requires settled { IsTrue (is_settled self.old) }
        requires first { (was : Pages) → holds self.old was → IsFirst was }
        requires bounds { (was : Pages) → holds self.old was → length bounds.now ≡ length was.journal }
        ensures tells { tells self.new → tells self.old }
        ensures done { tells self.new → OnOk result ((was : Pages) → holds self.old was → Keeps (holds self.new) (leaves self.new) (upgraded bounds.now was)) }
        ensures either { tells self.new → IsErrOf result KeepError.Fault → (was : Pages) → holds self.old was → LeavesEither (leaves self.new) was (upgraded bounds.now was) }
        ensures untold { IsErrOf result KeepError.Fault → TellsNone (holds self.new) }
        ensures same { tells self.new → IsErrOf result KeepError.Memory → TellsStill (holds self.old) (holds self.new) }
        ensures refused { tells self.new → IsErrOf result KeepError.Memory → LeavesNothingNew (leaves self.old) (leaves self.new) }
        ensures settles { OnOk result (IsTrue (is_settled self.new)) }
        ensures unsettled { IsErrOf result KeepError.Fault → is_settled self.new ≡ false }
        ensures stays { IsErrOf result KeepError.Memory → IsTrue (is_settled self.new) }
        ensures cause { IsCaused (faults self.old) (faults self.new) (IsErrOf result KeepError.Fault) };

    /// Adds an entry at the journal's end, without a bound in a book of the first format. It is in the place
    /// as a whole or not at all. Where the write fails the answer is `Fault`, and only a load can tell which.
    fn append(&mut self, entry: &Entry) -> Result<(), KeepError>
        requires settled { IsTrue (is_settled self.old) }
        requires next { (was : Pages) → holds self.old was → IsNext was entry.now }
        requires format { (was : Pages) → holds self.old was → IsFirst was → entry.now.bound ≡ 0 }
        ensures tells { tells self.new → tells self.old }
        ensures done { tells self.new → OnOk result ((was : Pages) → holds self.old was → Keeps (holds self.new) (leaves self.new) (with_entry was entry.now)) }
        ensures either { tells self.new → IsErrOf result KeepError.Fault → (was : Pages) → holds self.old was → LeavesEither (leaves self.new) was (with_entry was entry.now) }
        ensures untold { IsErrOf result KeepError.Fault → TellsNone (holds self.new) }
        ensures same { tells self.new → IsErrOf result KeepError.Memory → TellsStill (holds self.old) (holds self.new) }
        ensures refused { tells self.new → IsErrOf result KeepError.Memory → LeavesNothingNew (leaves self.old) (leaves self.new) }
        ensures settles { OnOk result (IsTrue (is_settled self.new)) }
        ensures unsettled { IsErrOf result KeepError.Fault → is_settled self.new ≡ false }
        ensures stays { IsErrOf result KeepError.Memory → IsTrue (is_settled self.new) }
        ensures cause { IsCaused (faults self.old) (faults self.new) (IsErrOf result KeepError.Fault) };

    /// Whether a load has ended well, and no write has failed since. It takes no memory.
    fn settled(&self) -> bool
        ensures { result ≡ is_settled self.now };

    /// It tells one book at most.
    ghost one: { (k : Self) (a b : Pages) → holds k a → holds k b → a ≡ b };

    /// It tells a book only where it tells.
    ghost told: { (k : Self) (b : Pages) → holds k b → tells k };

    /// Where it tells, a crash leaves something.
    ghost survives: { (k : Self) → tells k → LeavesSome (leaves k) };
}
