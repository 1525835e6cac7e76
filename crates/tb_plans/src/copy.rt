//! Assignments that give a signal the word of another one as it is.
ghost use Rattle.std.specs.Prelude.{◌<◌, map, length, IfSome};
ghost use Rattle.vlog_meaning.specs.Scopes.{store_of};
ghost use Rattle.tb_plans.specs.Copies.{IsWordFor, IsCopied};
ghost use Rattle.tb_plans.specs.Transfers.{transfer_updates, TransferFits};

use crate::target::Target;
use crate::transfer::Transfer;
use mcy_base::Word;
use tb_formulas::Formula;

/// A word for a signal of its width.
#[derive(Clone, Copy, Debug, PartialEq, Eq)]
pub struct Copied {
    pub signal: u32,
    pub word: Word,
}

/// The word of one signal for another one, where both have this width.
fn word_for(from: u32, signal: u32, width: u8, store: &[Word]) -> Option<Copied>
    requires { from < length store.now }
    ensures { IfSome result (IsWordFor store.now from signal width) }
{
    let word = store[from as usize];
    let Some(old) = store.get(signal as usize) else {
        return None;
    };
    if word.width() == width && old.width() == width {
        Some(Copied { signal, word })
    } else {
        None
    }
}

impl Transfer {
    /// The word that a signal gets, where an assignment is a copy of another one of its width. That is told from the plan and
    /// the widths, and none is found for some that are copies.
    #[inline]
    pub fn copied(&self, store: &[Word]) -> Option<Copied>
        requires { TransferFits (map (λ w. w.width) store.now) self.now }
        ensures { IfSome result (IsCopied (map (λ w. w.width) store.now) (transfer_updates self.now (store_of store.now))) }
    {
        match (&self.value, &self.target) {
            (Formula::Signal(from, _), Target::Filled { signal, low, width }) if *low == 0 => {
                word_for(*from, *signal, *width, store)
            }
            _ => None,
        }
    }
}
