//! A keeper over another one, and the watcher of both.
//!
//! What is kept is what the keeper below keeps: the watcher is told of a book or a row once it is there, and plays no part in any
//! clause. An upgrade adds no row, and he is told nothing of it.
ghost use Rattle.std.specs.Prelude.{◌≡◌, ◌↔◌, Option};
ghost use Rattle.mcy_keeper.specs.declared.book.Book.{Book as Pages};

use mcy_base::BytesList;
use mcy_keeper::{Book, BoundList, Entry, KeepError, Keeper};

/// Who is told what a keeper keeps.
pub trait Watcher {
    /// This book was loaded.
    fn loaded(&mut self, book: &Book);

    /// A book with these mutations was begun.
    fn begun(&mut self, mutations: &BytesList);

    /// This row was added.
    fn added(&mut self, entry: &Entry);
}

/// A keeper whose watcher is told what it keeps.
pub struct WatchedKeeper<K: Keeper, W: Watcher> {
    pub keeper: K,
    pub watcher: W,
}

impl<K: Keeper, W: Watcher> Keeper for WatchedKeeper<K, W> {
    ghost tells = { λ k. K.tells k.keeper };

    ghost holds = { λ k. K.holds k.keeper };

    ghost leaves = { λ k. K.leaves k.keeper };

    ghost is_settled = { λ k. K.is_settled k.keeper };

    ghost faults = { λ k. K.faults k.keeper };

    ghost one = { λ k. K.one k.keeper };

    ghost told = { λ k. K.told k.keeper };

    ghost survives = { λ k. K.survives k.keeper };

    fn load(&mut self) -> Result<Book, KeepError> {
        let loaded = self.keeper.load();
        if let Ok(book) = &loaded {
            self.watcher.loaded(book);
        }
        loaded
    }

    fn begin(&mut self, meta: &BytesList, mutations: &BytesList) -> Result<(), KeepError> {
        let written = self.keeper.begin(meta, mutations);
        if written.is_ok() {
            self.watcher.begun(mutations);
        }
        written
    }

    fn upgrade(&mut self, bounds: &BoundList) -> Result<(), KeepError> {
        self.keeper.upgrade(bounds)
    }

    fn append(&mut self, entry: &Entry) -> Result<(), KeepError> {
        let written = self.keeper.append(entry);
        if written.is_ok() {
            self.watcher.added(entry);
        }
        written
    }

    fn settled(&self) -> bool {
        self.keeper.settled()
    }
}

/// It tells what the keeper below tells.
pub fn watched_keepers_tell<K: Keeper, W: Watcher>(keeper: &WatchedKeeper<K, W>)
    ensures tells { ⟦<WatchedKeeper<K, W> as Keeper>⟧.tells keeper.now ↔ K.tells keeper.now.keeper }
    ensures holds { (b : Pages) → ⟦<WatchedKeeper<K, W> as Keeper>⟧.holds keeper.now b ↔ K.holds keeper.now.keeper b }
    ensures leaves { (left : Option Pages) → ⟦<WatchedKeeper<K, W> as Keeper>⟧.leaves keeper.now left ↔ K.leaves keeper.now.keeper left }
    ensures settled { ⟦<WatchedKeeper<K, W> as Keeper>⟧.is_settled keeper.now ≡ K.is_settled keeper.now.keeper }
    ensures faults { ⟦<WatchedKeeper<K, W> as Keeper>⟧.faults keeper.now ≡ K.faults keeper.now.keeper }
{
    let _ = keeper;
}
