//! The bits that the variables of a process have while it is built.
//!
//! A variable with blocking assignments has its bits in the builder, where later statements see them. One with
//! nonblocking assignments has them here, at its number: the builder keeps those of its register. Where no bits wait for a
//! variable there are none. Contracts see the list of these bits.
ghost use Rattle.std.specs.Prelude.{◌≡◌, ◌<◌, ◌≤◌, length, slice_set, IfOk};
ghost use Rattle.proc_muxes.specs.Builds.{held, with_held};
ghost use Rattle.proc_muxes.specs.Working.{work};

use net_builder::{Builder, copied_bits};
use netlist_core::BitList;
use std::alloc::{AllocError, Global};
use std::marker::Model;

/// The bits that wait for variables with nonblocking assignments, by their numbers.
#[derive(Drop)]
pub struct Variables {
    waiting: Vec<BitList>,
}

impl Model for Variables {
    ghost use Rattle.std.specs.Prelude.{List};
    ghost use Rattle.netlist_core.specs.declared.bit.Bit.{Bit};

    ghost Value = { List (List Bit) };

    ghost view = { λ v. v.waiting.items };
}

/// The same bits.
pub(crate) fn copied(alloc: Global, bits: &BitList) -> Result<BitList, AllocError>
    ensures { IfOk result (λ found. found ≡ bits.now) }
{
    copied_bits(alloc, bits.as_slice())
}

/// How many bits there are.
pub(crate) fn width_of(bits: &BitList) -> u8
    requires { length bits.now ≤ 128 }
    ensures { result ≡ length bits.now }
{
    bits.as_slice().len() as u8
}

impl Variables {
    /// These bits wait, at each signal's number those of the signal.
    pub fn new(waiting: Vec<BitList>) -> Variables
        ensures { result ≡ waiting.items }
    {
        Variables { waiting }
    }

    /// Gives the signal of this number bits that wait.
    pub fn set(&mut self, number: u32, bits: BitList)
        requires { number < length self.old }
        ensures { self.new ≡ slice_set self.old number bits }
    {
        self.waiting[number as usize] = bits;
    }

    /// The bits that an assignment of this kind changes.
    pub(crate) fn held(
        &self,
        builder: &Builder,
        number: u32,
        is_blocking: bool,
    ) -> Result<BitList, AllocError>
        requires known { number < length builder.now.signals }
        requires placed { number < length self.now }
        ensures { IfOk result (λ bits. bits ≡ held (work builder.now self.now) is_blocking number) }
    {
        if is_blocking {
            return copied_bits(builder.alloc(), builder.bits(number));
        }
        copied(builder.alloc(), &self.waiting[number as usize])
    }

    /// Gives a variable other bits.
    pub(crate) fn set_held(
        &mut self,
        builder: &mut Builder,
        number: u32,
        is_blocking: bool,
        bits: BitList,
    )
        requires known { number < length builder.old.signals }
        requires placed { number < length self.old }
        requires wide { length bits ≡ length (held (work builder.old self.old) is_blocking number) }
        ensures has { work builder.new self.new ≡ with_held is_blocking number bits (work builder.old self.old) }
        ensures places { length self.new ≡ length self.old }
    {
        if is_blocking {
            builder.set(number, bits);
        } else {
            self.waiting[number as usize] = bits;
        }
    }
}
