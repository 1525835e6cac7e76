//! Which register has a net as its lowest bit.
//!
//! `table` has the place of the register by the net's number; a net past its end is no register's. It is made longer only where
//! a register is laid.
ghost use Rattle.std.specs.Prelude.{◌≡◌, ◌≤◌, ℕ, OnOk, IfOk};
ghost use Rattle.netlist_core.specs.Runs.{q_bits};
ghost use Rattle.netlist_core.specs.Drivers.{times_at};
ghost use Rattle.elab_finish.specs.Heads.{head_in, with_head, after_lowest, HaveHeads};

use netlist_core::{Bit, Register};
use std::alloc::{AllocError, Global};

/// The place of the register of which a net is the lowest bit.
#[derive(Drop)]
pub(crate) struct Heads {
    table: Vec<Option<usize>>,
}

impl Heads {
    /// The place of the register of which the net is the lowest bit.
    pub(crate) fn of(&self, net: u32) -> Option<usize>
        ensures { result ≡ head_in self.now.table.items net }
    {
        match self.table.get(net as usize) {
            Some(place) => *place,
            None => None,
        }
    }

    /// Says that a net is the lowest bit of the register at a place.
    fn lay(&mut self, net: u32, place: usize) -> Result<(), AllocError>
        ensures { OnOk result (head_in self.new.table.items ≡ with_head net place (head_in self.old.table.items)) }
    {
        while self.table.len() <= net as usize {
            self.table.push(None)?;
        }
        self.table[net as usize] = Some(place);
        Ok(())
    }

    /// Says which net is the lowest bit of the register at a place.
    fn lay_lowest(&mut self, bits: &[Bit], place: usize) -> Result<(), AllocError>
        ensures { OnOk result (head_in self.new.table.items ≡ after_lowest bits.now place (head_in self.old.table.items)) }
    {
        match bits {
            [Bit::Net(net), ..] => self.lay(*net, place),
            _ => Ok(()),
        }
    }

    /// The places of all registers by their lowest bits.
    pub(crate) fn of_registers(alloc: Global, registers: &[Register]) -> Result<Heads, AllocError>
        requires { (n : ℕ) → times_at n (q_bits registers.now) ≤ 1 }
        ensures { IfOk result (λ heads. HaveHeads registers.now (head_in heads.table.items)) }
    {
        let mut heads = Heads {
            table: Vec::new(alloc),
        };
        for place in 0..registers.len() {
            heads.lay_lowest(registers[place].q.as_slice(), place)?;
        }
        Ok(heads)
    }
}
