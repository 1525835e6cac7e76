//! Laws on what the keepers in memory tell, which nothing in a body can change.
ghost use Rattle.std.specs.Prelude.{◌≡◌, Option, false, IsTrue};
ghost use Rattle.mcy_keeper.specs.declared.book.Book.{Book as Pages};
ghost use Rattle.mcy_keeper.specs.Books.{Keeps, LeavesOnly, TellsNone};
ghost use Rattle.mcy_keeper.specs.CleanKeeper.{Kept};
ghost use Rattle.mcy_keeper.specs.MemoryKeeper.{ScriptedKeeper};

use crate::clean::CleanKeeper;
use crate::keeper::Keeper;
use crate::memory::MemoryKeeper;

/// A keeper that never fails always tells the book that it keeps, a crash leaves just that book, and no fault is counted.
pub fn clean_keepers_always_tell()
    ensures keeps { (k : Kept) → Keeps (⟦<CleanKeeper as Keeper>⟧.holds k) (⟦<CleanKeeper as Keeper>⟧.leaves k) k.book }
    ensures settled { (k : Kept) → ⟦<CleanKeeper as Keeper>⟧.is_settled k ≡ k.settled }
    ensures faults { (k : Kept) → ⟦<CleanKeeper as Keeper>⟧.faults k ≡ 0 }
{}

/// A keeper whose calls fail by a list always tells; a crash leaves the book that it keeps, and it tells that book from a load
/// to the next write that failed.
pub fn memory_keepers_always_tell()
    ensures tells { (k : ScriptedKeeper) → ⟦<MemoryKeeper as Keeper>⟧.tells k }
    ensures keeps { (k : ScriptedKeeper) → IsTrue k.told → ⟦<MemoryKeeper as Keeper>⟧.holds k k.book }
    ensures untold { (k : ScriptedKeeper) → k.told ≡ false → TellsNone (⟦<MemoryKeeper as Keeper>⟧.holds k) }
    ensures crash { (k : ScriptedKeeper) → LeavesOnly (⟦<MemoryKeeper as Keeper>⟧.leaves k) k.book }
    ensures settled { (k : ScriptedKeeper) → ⟦<MemoryKeeper as Keeper>⟧.is_settled k ≡ k.settled }
    ensures faults { (k : ScriptedKeeper) → ⟦<MemoryKeeper as Keeper>⟧.faults k ≡ k.faults }
{}
