//! The call of the program over the database in a file.
//!
//! It is generic over `S`, which stands for what the file and its log hold: what is proved here is so for every content, also for
//! that which an earlier call has left.
ghost use Rattle.std.specs.Prelude.{◌≡◌, ◌↔◌, ◌⊎◌, ℕ, Option, map, string_bytes};
ghost use Rattle.sqlite_wal.specs.Files.{image_at};
ghost use Rattle.command_words.specs.declared.command.Command.{Command as Asked};
ghost use Rattle.keeper_file.specs.Contents.{Found};
ghost use Rattle.mcy_keeper.specs.declared.book.Book.{Book as Pages};
ghost use Rattle.mcy_top.specs.Baselines.{ToldBaselines};
ghost use Rattle.mcy_top.specs.Commands.{AsksBaseline, AsksDemo, AsksNoDemo};
ghost use Rattle.mcy_top.specs.Complete.{Completes, IsReady, NoneRose};
ghost use Rattle.mcy_top.specs.Life.{Answered, HasCause, IsQuiet, Life, Unloaded};
ghost use Rattle.mcy_top.specs.Passes.{LeavesTruePasses};
ghost use Rattle.mcy_top.specs.Shown.{Shown};

use campaign_outcomes::Outcome;
use keeper_file::Database;
use keeper_opening::OpeningKeeper;
use mcy_keeper::Keeper;
use mcy_outside::{Sink, SourceFiles};
use mcy_top::mcy_call;
use sqlite::{FileFrom, FileStore, Start};
use std::alloc::Global;
use watched_keeper::{WatchedKeeper, Watcher};

/// Carries out the command that the words after the program's name give, over the database in a file, which it opens when it
/// loads the book, and no more than once. The keeper and its watcher are given back, to be ended.
///
/// No book is told as the call begins. The one that it loads is found in the file (`Found`): the clauses are those of `mcy_main` of
/// `mcy_top`, with what the file holds in place of what a keeper leaves. A demo and what the benches say of
/// the design itself open no file and tell the watcher nothing.
pub fn call_on_file<S: Start, F: SourceFiles, W: Watcher, O: Sink>(
    alloc: Global,
    database: Database<S>,
    words: &[String],
    files: &mut F,
    watcher: W,
    out: &mut O,
) -> (
    Outcome,
    OpeningKeeper<FileStore<FileFrom<S>>, Database<S>>,
    W,
)
    ensures answer { AsksNoDemo (map string_bytes words.now) → Answered (map string_bytes words.now) (F.held files.old) result.0 }
    ensures cause { HasCause (F.faults files.old) (F.faults files.new) 0 (⟦<OpeningKeeper<FileStore<FileFrom<S>>, Database<S>> as Keeper>⟧.faults result.1) (O.faults out.old) (O.faults out.new) result.0 }
    ensures quiet { IsQuiet (O.written out.old) (O.written out.new) result.0 }
    ensures life { ⟦<OpeningKeeper<FileStore<FileFrom<S>>, Database<S>> as Keeper>⟧.tells result.1 → (n : ℕ)
        × (Unloaded (map string_bytes words.now) (Found (image_at S.Start)) (⟦<OpeningKeeper<FileStore<FileFrom<S>>, Database<S>> as Keeper>⟧.leaves result.1) 0 n result.0
        ⊎ Life (map string_bytes words.now) (F.held files.old) (λ _. ⊥) (Found (image_at S.Start)) (⟦<OpeningKeeper<FileStore<FileFrom<S>>, Database<S>> as Keeper>⟧.leaves result.1) (O.written out.old) (O.written out.new) 0 n result.0) }
    ensures demo { (seed cells : ℕ) → AsksDemo (map string_bytes words.now) seed cells → (n : ℕ) × Shown seed cells (O.written out.old) (O.written out.new) 0 n result.0 × (files.new ≡ files.old) × (result.2 ≡ watcher)
        × ((left : Option Pages) → ⟦<OpeningKeeper<FileStore<FileFrom<S>>, Database<S>> as Keeper>⟧.leaves result.1 left ↔ Found (image_at S.Start) left) }
    ensures baseline { AsksBaseline (map string_bytes words.now) → ToldBaselines (F.held files.old) (O.written out.old) (O.written out.new) result.0 × (result.2 ≡ watcher)
        × ((left : Option Pages) → ⟦<OpeningKeeper<FileStore<FileFrom<S>>, Database<S>> as Keeper>⟧.leaves result.1 left ↔ Found (image_at S.Start) left) }
    ensures pass { ⟦<OpeningKeeper<FileStore<FileFrom<S>>, Database<S>> as Keeper>⟧.tells result.1 → LeavesTruePasses (Found (image_at S.Start)) → LeavesTruePasses (⟦<OpeningKeeper<FileStore<FileFrom<S>>, Database<S>> as Keeper>⟧.leaves result.1) }
    ensures complete { ⟦<OpeningKeeper<FileStore<FileFrom<S>>, Database<S>> as Keeper>⟧.tells result.1 → (command : Asked) → IsReady (map string_bytes words.now) (F.held files.old) (λ _. ⊥) (Found (image_at S.Start)) command
        → NoneRose (F.faults files.old) (F.faults files.new) 0 (⟦<OpeningKeeper<FileStore<FileFrom<S>>, Database<S>> as Keeper>⟧.faults result.1) (O.faults out.old) (O.faults out.new) → Completes command result.0 }
{
    let opening = OpeningKeeper::new(alloc, database);
    let mut keeper = WatchedKeeper {
        keeper: opening,
        watcher,
    };
    let outcome = mcy_call(alloc, words, files, &mut keeper, out);
    let WatchedKeeper { keeper, watcher } = keeper;
    (outcome, keeper, watcher)
}
