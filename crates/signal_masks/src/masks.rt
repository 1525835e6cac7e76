//! Sets of bits of signals, each signal that has any once.
//!
//! A set is a list of masks, one for each signal that was touched, in the order in which they were touched; contracts see the
//! bits that these have. Where a signal is looked for, all of them are gone through.
ghost use Rattle.std.specs.Prelude.{◌≡◌, ◌<◌, ℕ, length, ◌&&◌, ◌||◌, not, nat_eq, [], IfSome, OnOk};
ghost use Rattle.std.specs.List.{HoldsAt};
ghost use Rattle.signal_masks.specs.declared.mask.Mask.{Mask as One};
ghost use Rattle.signal_masks.specs.Masks.{has_bit, bits_in};

use crate::mask::{Mask, common, joined, missing};
use std::alloc::{AllocError, Global};
use std::marker::Model;

/// A set of bits of signals.
#[derive(Drop)]
pub struct Masks {
    masks: Vec<Mask>,
}

impl Model for Masks {
    ghost use Rattle.std.specs.Prelude.{List};
    ghost use Rattle.signal_masks.specs.declared.mask.Mask.{Mask as Bits};

    ghost Value = { List Bits };

    ghost view = { λ m. m.masks.items };
}

impl Masks {
    /// No bits.
    pub fn new(alloc: Global) -> Masks
        ensures { result ≡ [] }
    {
        Masks {
            masks: Vec::new(alloc),
        }
    }

    /// The masks.
    pub fn as_slice(&self) -> &[Mask]
        ensures { result.now ≡ self.now }
    {
        self.masks.as_slice()
    }

    /// The bits of a signal.
    pub fn bits(&self, number: u32) -> u128
        ensures { (i : ℕ) → has_bit result i ≡ bits_in self.now number i }
    {
        let mut bits = 0;
        for mask in self.as_slice() {
            bits = joined(bits, mask.of(number));
        }
        bits
    }

    /// Where the signal's mask stands.
    fn find(&self, number: u32) -> Option<usize>
        ensures { IfSome result (λ k. (k < length self.now) × HoldsAt (λ (m : One). m.number ≡ number) self.now k) }
    {
        self.masks.iter().position(|mask| mask.number == number)
    }

    /// Adds bits of a signal.
    pub fn add(&mut self, number: u32, bits: u128) -> Result<(), AllocError>
        ensures { OnOk result ((n i : ℕ) → bits_in self.new n i ≡ (bits_in self.old n i || (nat_eq n number && has_bit bits i))) }
    {
        match self.find(number) {
            Some(place) => {
                let old = self.masks[place];
                self.masks[place] = Mask {
                    number,
                    bits: joined(old.bits, bits),
                };
            }
            None => self.masks.push(Mask { number, bits })?,
        }
        Ok(())
    }

    /// Adds the bits of another set.
    pub fn add_all(&mut self, other: &Masks) -> Result<(), AllocError>
        ensures { OnOk result ((n i : ℕ) → bits_in self.new n i ≡ (bits_in self.old n i || bits_in other.now n i)) }
    {
        for mask in other.as_slice() {
            self.add(mask.number, mask.bits)?;
        }
        Ok(())
    }

    /// Adds the bits that are in two sets.
    pub fn add_common(&mut self, first: &Masks, second: &Masks) -> Result<(), AllocError>
        ensures { OnOk result ((n i : ℕ) → bits_in self.new n i ≡ (bits_in self.old n i || (bits_in first.now n i && bits_in second.now n i))) }
    {
        for mask in first.as_slice() {
            self.add(mask.number, common(mask.bits, second.bits(mask.number)))?;
        }
        Ok(())
    }

    /// Adds the bits that are in the first set and not in the second.
    pub fn add_missing(&mut self, first: &Masks, second: &Masks) -> Result<(), AllocError>
        ensures { OnOk result ((n i : ℕ) → bits_in self.new n i ≡ (bits_in self.old n i || (bits_in first.now n i && not (bits_in second.now n i)))) }
    {
        for mask in first.as_slice() {
            self.add(mask.number, missing(mask.bits, second.bits(mask.number)))?;
        }
        Ok(())
    }
}
