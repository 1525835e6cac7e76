//! What a statement has changed.
ghost use Rattle.std.specs.Prelude.{◌≡◌, ◌≤◌, ◌++◌, ◌∷◌, [], drop, length, IfOk, OnOk};
ghost use Rattle.proc_muxes.specs.Working.{is_changed, joined};

use netlist_core::BitList;
use std::alloc::{AllocError, Global};
use std::marker::Model;

/// A variable that was assigned, with the bits that it had before.
#[derive(Drop)]
pub struct Change {
    pub number: u32,
    pub is_blocking: bool,
    pub before: BitList,
}

/// Variables that were assigned, each once, in the order of their first assignment.
#[derive(Drop)]
pub struct Changes {
    items: Vec<Change>,
}

impl Model for Changes {
    ghost use Rattle.std.specs.Prelude.{List};
    ghost use Rattle.proc_muxes.specs.declared.change.Change.{Change as Changed};

    ghost Value = { List Changed };

    ghost view = { λ c. c.items.items };
}

/// Whether the variable stands among the changes.
fn is_changed(changes: &[Change], number: u32, is_blocking: bool) -> bool
    ensures { result ≡ is_changed is_blocking changes.now number }
{
    for change in changes {
        if change.number == number && change.is_blocking == is_blocking {
            return true;
        }
    }
    false
}

impl Changes {
    /// No change.
    pub fn new(alloc: Global) -> Changes
        ensures { result ≡ [] }
    {
        Changes {
            items: Vec::new(alloc),
        }
    }

    /// The changes.
    pub fn as_slice(&self) -> &[Change]
        ensures { result.now ≡ self.now }
    {
        self.items.as_slice()
    }

    /// How many changes there are.
    pub(crate) fn len(&self) -> usize
        ensures { result ≡ length self.now }
    {
        self.items.len()
    }

    /// The changes from this number on.
    pub(crate) fn part(&self, first: usize) -> &[Change]
        requires { first ≤ length self.now }
        ensures { result.now ≡ drop first self.now }
    {
        &self.items[first..]
    }

    /// Whether the variable has a change by assignments of this kind.
    pub(crate) fn has(&self, number: u32, is_blocking: bool) -> bool
        ensures { result ≡ is_changed is_blocking self.now number }
    {
        is_changed(self.items.as_slice(), number, is_blocking)
    }

    /// The change of a further variable.
    pub fn push(&mut self, change: Change) -> Result<(), AllocError>
        ensures { OnOk result (self.new ≡ self.old ++ change ∷ []) }
    {
        self.items.push(change)?;
        Ok(())
    }

    /// Adds later changes, of variables that have none yet.
    pub fn join(&mut self, later: Changes) -> Result<(), AllocError>
        ensures { OnOk result (self.new ≡ joined self.old later) }
    {
        for change in later.items {
            if !is_changed(self.items.as_slice(), change.number, change.is_blocking) {
                self.items.push(change)?;
            }
        }
        Ok(())
    }
}
