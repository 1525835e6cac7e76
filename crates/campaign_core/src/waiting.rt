//! What the mutations wait for, so that the least one that waits is found in few steps.
//!
//! `wants` has for each mutation the test that it waits for, or none. The mutations stand in blocks of `BLOCK`, and `leads` has for
//! each block the least mutation that waits. A change looks at one block, a question at the leads alone. Contracts see `wants`.
ghost use Rattle.std.specs.Prelude.{◌≡◌, ◌+◌, ◌*◌, ◌<◌, ◌≤◌, ◌^◌, IfOk, is_some, length, slice_get, slice_set, vec_len};
ghost use Rattle.std.specs.List.{position_from};
ghost use Rattle.campaign_core.specs.Waits.{IsLead, block_size, want_at};

use result_book::Want;
use std::alloc::{AllocError, Global};
use std::marker::Model;

/// How many mutations a block has.
const BLOCK: usize = 128;

/// For each mutation, what it waits for.
#[derive(Drop)]
pub(crate) struct Waiting {
    wants: Vec<Option<Want>>,
    leads: Vec<Option<u32>>,
}

impl Model for Waiting {
    ghost use Rattle.std.specs.Prelude.{List, Option};
    ghost use Rattle.result_book.specs.declared.goal.Want.{Want};
    ghost use Rattle.campaign_core.specs.Waits.{AreLeads};

    ghost Value = { List (Option Want) };

    ghost view = { λ w. w.wants.items };

    ghost invariant = { λ w. AreLeads w.wants.items w.leads.items };
}

/// The least mutation of these that waits.
fn lead(wants: &[Option<Want>], start: usize, end: usize) -> Option<u32>
    requires order { start ≤ end }
    requires end { end ≤ length wants.now }
    requires few { length wants.now < 2 ^ 32 }
    ensures { IsLead wants.now start end result }
{
    for mutation in start..end {
        if wants[mutation].is_some() {
            return Some(mutation as u32);
        }
    }
    None
}

/// The least mutation of a block that waits.
fn block_lead(wants: &[Option<Want>], block: usize) -> Option<u32>
    requires start { block_size * block ≤ length wants.now }
    requires few { length wants.now < 2 ^ 32 }
    ensures { IsLead wants.now (block_size * block) (block_size * block + block_size) result }
{
    let start = block * BLOCK;
    let end = wants.len().min(start + BLOCK);
    lead(wants, start, end)
}

impl Waiting {
    /// The mutations wait for these.
    pub(crate) fn new(alloc: Global, wants: Vec<Option<Want>>) -> Result<Waiting, AllocError>
        requires { vec_len wants < 2 ^ 32 }
        ensures { IfOk result (λ waiting. waiting ≡ wants.items) }
    {
        let mut leads = Vec::new(alloc);
        for block in 0..wants.len() / BLOCK + 1 {
            leads.push(block_lead(&wants, block))?;
        }
        Ok(Waiting { wants, leads })
    }

    /// What a mutation waits for. None where there is no such mutation.
    pub(crate) fn of(&self, mutation: u32) -> Option<Want>
        ensures { result ≡ want_at self.now mutation }
    {
        match self.wants.get(mutation as usize) {
            Some(want) => *want,
            None => None,
        }
    }

    /// A mutation waits for this from now on.
    pub(crate) fn set(&mut self, mutation: u32, want: Option<Want>)
        requires { mutation < length self.old }
        ensures { self.new ≡ slice_set self.old mutation want }
    {
        let place = mutation as usize;
        self.wants[place] = want;
        let block = place / BLOCK;
        self.leads[block] = block_lead(&self.wants, block);
    }

    /// The least mutation that waits.
    pub(crate) fn least(&self) -> Option<u32>
        ensures { result ≡ position_from is_some 0 self.now }
    {
        for lead in &self.leads {
            if lead.is_some() {
                return *lead;
            }
        }
        None
    }
}
