//! A table of bits of signals: at each number of a signal the mask of its bits, bit 0 the lowest. Numbers past its end have none.
ghost use Rattle.std.specs.Prelude.{◌≡◌, ◌<◌, length, slice_index_or, OnOk};
ghost use Rattle.vlog_meaning.specs.Senses.{either, no_bits};
ghost use Rattle.tb_writers.specs.Views.{bits_of, mask_bits};

use std::alloc::{AllocError, Global};
use std::marker::Model;

/// Bits of signals.
#[derive(Drop)]
pub(crate) struct Table {
    masks: Vec<u128>,
}

impl Model for Table {
    ghost use Rattle.std.specs.Prelude.{List, ℕ};

    ghost Value = { List ℕ };

    ghost view = { λ t. t.masks.items };
}

impl Table {
    /// No bits.
    #[tactic(auto, using(crate::proofs::Tables::none_at_first))]
    pub(crate) fn new(alloc: Global) -> Table
        ensures { bits_of result ≡ no_bits }
    {
        Table {
            masks: Vec::new(alloc),
        }
    }

    /// The mask of a signal.
    pub(crate) fn mask(&self, number: u32) -> u128
        ensures { result ≡ slice_index_or self.now number 0 }
    {
        match self.masks.get(number as usize) {
            Some(mask) => *mask,
            None => 0,
        }
    }

    /// Makes room for the mask of a signal.
    fn reach(&mut self, number: u32) -> Result<(), AllocError>
        ensures bits { OnOk result (bits_of self.new ≡ bits_of self.old) }
        ensures room { OnOk result (number < length self.new) }
    {
        while self.masks.len() <= number as usize {
            self.masks.push(0)?;
        }
        Ok(())
    }

    /// Adds bits of a signal.
    #[tactic(auto, using(crate::proofs::Tables::mask_more))]
    pub(crate) fn add(&mut self, number: u32, bits: u128) -> Result<(), AllocError>
        ensures { OnOk result (bits_of self.new ≡ either (bits_of self.old) (mask_bits number bits)) }
    {
        self.reach(number)?;
        let mask = self.mask(number) | bits;
        self.masks[number as usize] = mask;
        Ok(())
    }
}
