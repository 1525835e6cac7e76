//! The arms of a case that are open: their muxes wait for the arms after them.
//!
//! The first arm's muxes are the last ones, since each of them chooses between the arm and all that come after it. So open arms
//! are on a stack, and no call nests as deep as a case has items. Contracts see the arms as a list, the last one first.
ghost use Rattle.std.specs.Prelude.{◌≡◌, [], ◌∷◌, MatchOption, OnOk};

use crate::change::Changes;
use crate::choice::Choice;
use mcy_base::Span;
use netlist_core::BitList;
use std::alloc::{AllocError, Global};
use std::marker::Model;

/// An arm that was built: the place of its item, the bit of its labels, what it has changed, and what these variables have after it.
#[derive(Drop)]
pub(crate) struct OpenArm {
    pub at: Span,
    pub test: BitList,
    pub changes: Changes,
    pub first: Vec<Choice>,
}

/// Open arms.
#[derive(Drop)]
pub(crate) struct OpenArms {
    items: Vec<OpenArm>,
}

impl Model for OpenArms {
    ghost use Rattle.std.specs.Prelude.{List, reverse};
    ghost use Rattle.proc_muxes.specs.declared.open_arms.OpenArm.{OpenArm as Arm};

    ghost Value = { List Arm };

    ghost view = { λ s. reverse s.items.items };
}

impl OpenArms {
    /// No arm.
    pub(crate) fn new(alloc: Global) -> OpenArms
        ensures { result ≡ [] }
    {
        OpenArms {
            items: Vec::new(alloc),
        }
    }

    /// The arm after these.
    pub(crate) fn push(&mut self, arm: OpenArm) -> Result<(), AllocError>
        ensures { OnOk result (self.new ≡ arm ∷ self.old) }
    {
        self.items.push(arm)?;
        Ok(())
    }

    /// Takes the last arm.
    pub(crate) fn pop(&mut self) -> Option<OpenArm>
        ensures { MatchOption result ((self.old ≡ []) × (self.new ≡ [])) (λ arm. self.old ≡ arm ∷ self.new) }
    {
        self.items.pop()
    }
}
