//! What a search looks at: clauses, and the free bits that it decides, in their order.
//!
//! A search first looks at the cone of the last clause alone. Nothing rests on what the cone is: before a search says that it found a
//! model, it looks at everything.
ghost use Rattle.std.specs.Prelude.{◌≡◌, ◌<◌, ◌≤◌, ℕ, length, All, Contains, true, IfOk};
ghost use Rattle.sat_solver.specs.Parts.{IsFocus};

use clause_cone::Cone;
use clause_store::ClauseStore;
use std::alloc::{AllocError, Global};

/// Clauses and free bits that a search looks at.
pub struct Focus {
    /// For each of the first clauses whether it is left out.
    pub left_out: Vec<bool>,
    /// The free bits in the order in which they are decided.
    pub bits: Vec<u32>,
    /// Nothing is left out.
    pub whole: bool,
}

impl Drop for Focus {
    fn drop(self) {
        let Focus {
            left_out: _left_out,
            bits: _bits,
            whole: _whole,
        } = self;
    }
}

impl Focus {
    /// The cone of the last clause.
    pub fn on_cone(
        alloc: Global,
        store: &ClauseStore,
        variables: u32,
        free: u32,
    ) -> Result<Focus, AllocError>
        ensures { IfOk result (IsFocus (length store.now) free) }
    {
        let Cone { left_out, bits } = Cone::new(alloc, store, variables, free)?;
        Ok(Focus {
            left_out,
            bits,
            whole: false,
        })
    }

    /// All clauses and free bits, of which these are decided first.
    pub fn on_all(alloc: Global, first: &[u32], free: u32) -> Result<Focus, AllocError>
        requires { All (λ v. (0 < v) × (v ≤ free)) first.now }
        ensures focus { IfOk result (λ focus. (count : ℕ) → IsFocus count free focus) }
        ensures whole { IfOk result (λ focus. focus.whole ≡ true) }
    {
        Ok(Focus {
            left_out: Vec::new(alloc),
            bits: all_bits(alloc, first, free)?,
            whole: true,
        })
    }
}

/// These free bits, and after them all.
fn all_bits(alloc: Global, first: &[u32], free: u32) -> Result<Vec<u32>, AllocError>
    requires { All (λ v. (0 < v) × (v ≤ free)) first.now }
    ensures range { IfOk result (λ bits. All (λ v. (0 < v) × (v ≤ free)) bits.items) }
    ensures all { IfOk result (λ bits. (v : ℕ) → 0 < v → v ≤ free → Contains bits.items v) }
{
    let mut bits = Vec::new(alloc);
    bits.extend_from_slice(first)?;
    for v in 0..free {
        bits.push(v + 1)?;
    }
    Ok(bits)
}
