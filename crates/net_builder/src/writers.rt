//! What each net is written by.
//!
//! `table` has the writer of each net by the net's number; a net past its end has none. It is made longer only where
//! a net is written, and signals have their nets before the cells have theirs, so it is mostly as long as the signals
//! have bits.
ghost use Rattle.std.specs.Prelude.{◌≡◌, ◌<◌, ◌≤◌, OnOk, length};
ghost use Rattle.net_builder.specs.Building.{AllBelow};
ghost use Rattle.net_builder.specs.Written.{writers_of, no_writers, after_joint, after_stored, after_stores};

use netlist_core::Bit;
use std::alloc::{AllocError, Global};

/// What a net is written by.
#[derive(Clone, Copy, Debug, PartialEq, Eq)]
pub(crate) enum Writer {
    Nothing,
    /// It is joined to a bit.
    Joined(Bit),
    /// It is a bit of a register's Q.
    Stored,
}

/// The writer of each net.
#[derive(Drop)]
pub(crate) struct Writers {
    table: Vec<Writer>,
}

impl Writers {
    /// Nothing is written.
    pub(crate) fn new(alloc: Global) -> Writers
        ensures { writers_of result ≡ no_writers }
    {
        Writers {
            table: Vec::new(alloc),
        }
    }

    /// The writer of a net.
    pub(crate) fn of(&self, net: u32) -> Writer
        ensures { result ≡ writers_of self.now net }
    {
        match self.table.get(net as usize) {
            Some(writer) => *writer,
            None => Writer::Nothing,
        }
    }

    /// Makes the table so long that it has this net.
    pub(crate) fn make_room(&mut self, net: u32) -> Result<(), AllocError>
        ensures room { OnOk result (net < length self.new.table.items) }
        ensures longer { length self.old.table.items ≤ length self.new.table.items }
        ensures same { writers_of self.new ≡ writers_of self.old }
    {
        while self.table.len() <= net as usize {
            self.table.push(Writer::Nothing)?;
        }
        Ok(())
    }

    /// Makes the table so long that it has the nets of these bits.
    pub(crate) fn make_room_for(&mut self, bits: &[Bit]) -> Result<(), AllocError>
        ensures room { OnOk result (AllBelow (length self.new.table.items) bits.now) }
        ensures same { writers_of self.new ≡ writers_of self.old }
    {
        for bit in bits {
            if let Bit::Net(net) = *bit {
                self.make_room(net)?;
            }
        }
        Ok(())
    }

    /// A net is joined to a bit. Where it was joined before, that stays.
    pub(crate) fn join(&mut self, net: u32, bit: Bit)
        requires { net < length self.old.table.items }
        ensures { writers_of self.new ≡ after_joint net bit (writers_of self.old) }
    {
        match self.table[net as usize] {
            Writer::Joined(_) => {}
            Writer::Nothing | Writer::Stored => self.table[net as usize] = Writer::Joined(bit),
        }
    }

    /// A net is a bit of a register's Q.
    fn store_net(&mut self, net: u32)
        requires { net < length self.old.table.items }
        ensures is { writers_of self.new ≡ after_stored net (writers_of self.old) }
        ensures long { length self.new.table.items ≡ length self.old.table.items }
    {
        match self.table[net as usize] {
            Writer::Joined(_) | Writer::Stored => {}
            Writer::Nothing => self.table[net as usize] = Writer::Stored,
        }
    }

    /// The bits are a register's Q.
    pub(crate) fn store(&mut self, bits: &[Bit])
        requires { AllBelow (length self.old.table.items) bits.now }
        ensures { writers_of self.new ≡ after_stores bits.now (writers_of self.old) }
    {
        for bit in bits {
            if let Bit::Net(net) = *bit {
                self.store_net(net);
            }
        }
    }
}
