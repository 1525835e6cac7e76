//! A watch over what a bench prints: it looks for the pass text and for the fail text.
ghost use Rattle.std.specs.Prelude.{◌≡◌, ◌↔◌, ℕ, ◌++◌, [], List, IsTrue, IfOk};
ghost use Rattle.tb_watch.specs.Occurs.{Occurs};
ghost use Rattle.tb_watch.specs.Searches.{Watched, HasWatched};

use crate::search::Search;
use std::alloc::{AllocError, Global};
use std::marker::Model;

/// Searches for the two texts that decide a verdict.
pub struct Watch {
    pass: Search,
    fail: Search,
}

impl Drop for Watch {
    fn drop(self) {
        let Watch {
            pass: _pass,
            fail: _fail,
        } = self;
    }
}

impl Model for Watch {
    ghost Value = { Watched };

    ghost view = { λ w. record { pass = w.pass; fail = w.fail } };
}

impl Watch {
    /// A watch that has seen no text.
    pub fn new(alloc: Global, pass: &[u8], fail: &[u8]) -> Result<Watch, AllocError>
        ensures pass { IfOk result (λ w. w.pass.word ≡ pass.now) }
        ensures fail { IfOk result (λ w. w.fail.word ≡ fail.now) }
        ensures seen { IfOk result (λ w. HasWatched w []) }
    {
        Ok(Watch {
            pass: Search::new(alloc, pass)?,
            fail: Search::new(alloc, fail)?,
        })
    }

    /// Sees the next piece of the text. After an error, want of memory, the watch may have seen the piece for one of its two
    /// texts and is only to be dropped.
    pub fn see(&mut self, piece: &[u8]) -> Result<(), AllocError>
        ensures pass { self.new.pass.word ≡ self.old.pass.word }
        ensures fail { self.new.fail.word ≡ self.old.fail.word }
        ensures seen { (text : List ℕ) → HasWatched self.old text → IfOk result (λ _. HasWatched self.new (text ++ piece.now)) }
    {
        self.pass.see(piece)?;
        self.fail.see(piece)
    }

    /// Whether the pass text has occurred.
    pub fn saw_pass(&self) -> bool
        ensures { (text : List ℕ) → HasWatched self.now text → IsTrue result ↔ Occurs self.now.pass.word text }
    {
        self.pass.found()
    }

    /// Whether the fail text has occurred.
    pub fn saw_fail(&self) -> bool
        ensures { (text : List ℕ) → HasWatched self.now text → IsTrue result ↔ Occurs self.now.fail.word text }
    {
        self.fail.found()
    }
}
