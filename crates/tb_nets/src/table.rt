//! Which nodes write the bits of each signal.
//!
//! `rows` has a list for each signal by its number, as far as one was written, with the bits that each node writes.
ghost use Rattle.std.specs.Prelude.{◌≡◌, ◌||◌, ◌&&◌, nat_eq, ◌<◌, ℕ, List, [], ◌++◌, OnOk, IfOk, length, slice_index_or};
ghost use Rattle.signal_masks.specs.Masks.{has_bit, bits_in};
ghost use Rattle.tb_nets.specs.Writers.{rows_of, writes_in, shares, sharing, with_sharing, all_sharing};

use signal_masks::{Mask, Masks};
use std::alloc::{AllocError, Global};

/// Bits of a signal that a node writes, bit 0 the lowest.
#[derive(Clone, Copy)]
pub(crate) struct Writer {
    pub bits: u128,
    pub node: usize,
}

/// The writers of each signal.
#[derive(Drop)]
pub(crate) struct Writers {
    rows: Vec<Vec<Writer>>,
}

impl Writers {
    /// Nothing is written.
    pub(crate) fn new(alloc: Global) -> Writers
        ensures { rows_of result ≡ [] }
    {
        Writers {
            rows: Vec::new(alloc),
        }
    }

    /// There is a list for the signal.
    fn make_room(&mut self, alloc: Global, number: u32) -> Result<(), AllocError>
        ensures room { OnOk result (number < length self.new.rows.items) }
        ensures same { OnOk result ((n : ℕ) → slice_index_or (rows_of self.new) n [] ≡ slice_index_or (rows_of self.old) n []) }
    {
        while self.rows.len() <= number as usize {
            self.rows.push(Vec::new(alloc))?;
        }
        Ok(())
    }

    /// A node writes bits of a signal.
    pub(crate) fn add(&mut self, alloc: Global, mask: Mask, node: usize) -> Result<(), AllocError>
        ensures { OnOk result ((n i d : ℕ) → writes_in (rows_of self.new) n i d ≡ (writes_in (rows_of self.old) n i d || (nat_eq d node && (nat_eq n mask.number && has_bit mask.bits i)))) }
    {
        self.make_room(alloc, mask.number)?;
        self.rows[mask.number as usize].push(Writer {
            bits: mask.bits,
            node,
        })?;
        Ok(())
    }

    /// A node writes bits of signals.
    pub(crate) fn add_all(
        &mut self,
        alloc: Global,
        masks: &Masks,
        node: usize,
    ) -> Result<(), AllocError>
        ensures { OnOk result ((n i d : ℕ) → writes_in (rows_of self.new) n i d ≡ (writes_in (rows_of self.old) n i d || (nat_eq d node && bits_in masks.now n i))) }
    {
        for mask in masks.as_slice() {
            self.add(alloc, *mask, node)?;
        }
        Ok(())
    }

    /// The writers of a signal.
    fn row(&self, number: u32) -> &[Writer]
        ensures { result.now ≡ slice_index_or (rows_of self.now) number [] }
    {
        match self.rows.get(number as usize) {
            Some(row) => row.as_slice(),
            None => &[],
        }
    }

    /// Adds the nodes that write one of the bits of a signal.
    fn find(&self, mask: Mask, found: &mut Vec<usize>) -> Result<(), AllocError>
        ensures { OnOk result (found.new.items ≡ found.old.items ++ sharing mask.bits (slice_index_or (rows_of self.now) mask.number [])) }
    {
        for writer in self.row(mask.number) {
            add_sharing(mask.bits, *writer, found)?;
        }
        Ok(())
    }

    /// The nodes that write one of the bits.
    pub(crate) fn of(&self, alloc: Global, masks: &Masks) -> Result<Vec<usize>, AllocError>
        ensures { IfOk result (λ row. row.items ≡ all_sharing (rows_of self.now) masks.now) }
    {
        let mut found = Vec::new(alloc);
        for mask in masks.as_slice() {
            self.find(*mask, &mut found)?;
        }
        Ok(found)
    }
}

/// Whether two numbers have a bit in common.
fn share(a: u128, b: u128) -> bool
    ensures { result ≡ shares a b }
{
    a & b != 0
}

/// Adds the node of a writer that writes one of the bits.
fn add_sharing(bits: u128, writer: Writer, found: &mut Vec<usize>) -> Result<(), AllocError>
    ensures { OnOk result ((rest : List ℕ) → found.new.items ++ rest ≡ found.old.items ++ with_sharing bits writer rest) }
{
    if share(writer.bits, bits) {
        found.push(writer.node)?;
    }
    Ok(())
}
