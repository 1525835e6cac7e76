//! The search for a word in a text that comes in pieces.
//!
//! Until the word is found, `tail` is the end of the text so far, one byte shorter than the word: an occurrence that the next
//! piece ends begins there or in the piece. A piece costs time linear in its length, and none once the word is found.
ghost use Rattle.std.specs.Prelude.{◌≡◌, ◌↔◌, ℕ, ◌-◌, ◌++◌, [], List, IsTrue, IfOk, IfErr};
ghost use Rattle.tb_watch.specs.Occurs.{Occurs, last};
ghost use Rattle.tb_watch.specs.Searches.{HasSeen};

use memchr::memmem;
use std::alloc::{AllocError, Global};
use std::marker::Model;

/// A search for a word.
#[derive(Drop)]
pub struct Search {
    word: Vec<u8>,
    found: bool,
    tail: Vec<u8>,
}

impl Model for Search {
    ghost use Rattle.tb_watch.specs.Searches.{Searching};

    ghost Value = { Searching };

    ghost view = { λ s. record { word = s.word.items; found = s.found; tail = s.tail.items } };
}

impl Search {
    /// A search that has seen no text.
    pub fn new(alloc: Global, word: &[u8]) -> Result<Search, AllocError>
        ensures word { IfOk result (λ s. s.word ≡ word.now) }
        ensures seen { IfOk result (λ s. HasSeen s []) }
    {
        Ok(Search {
            word: word.to_vec(alloc)?,
            found: false,
            tail: Vec::new(alloc),
        })
    }

    /// Sees the next piece of the text. The error is want of memory, and then nothing has changed.
    pub fn see(&mut self, piece: &[u8]) -> Result<(), AllocError>
        ensures word { self.new.word ≡ self.old.word }
        ensures seen { (text : List ℕ) → HasSeen self.old text → IfOk result (λ _. HasSeen self.new (text ++ piece.now)) }
        ensures unchanged { IfErr result (λ _. self.new ≡ self.old) }
    {
        if self.found {
            return Ok(());
        }
        self.tail.extend_from_slice(piece)?;
        self.found = occurs(self.tail.as_slice(), self.word.as_slice());
        keep_end(&mut self.tail, self.word.len().saturating_sub(1));
        Ok(())
    }

    /// Whether the word has occurred.
    pub fn found(&self) -> bool
        ensures { result ≡ self.now.found }
    {
        self.found
    }
}

/// Whether the word occurs in the text. An empty one occurs nowhere.
fn occurs(text: &[u8], word: &[u8]) -> bool
    ensures { IsTrue result ↔ Occurs word.now text.now }
{
    if word.is_empty() {
        return false;
    }
    memmem::find(text, word).is_some()
}

/// Takes all but the last `n` bytes from the front.
fn keep_end(text: &mut Vec<u8>, n: usize)
    ensures { text.new.items ≡ last n text.old.items }
{
    let cut = text.len().saturating_sub(n);
    text.drain(..cut);
}
