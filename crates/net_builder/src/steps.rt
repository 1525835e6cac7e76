//! Where each net of a builder leads next.
//!
//! `table` has for each net, by its number, whether it stays, is a constant, or goes on at another net. A net past the
//! table's end stays. Invariant: the table has no more entries than there are numbers of nets.
ghost use Rattle.std.specs.Prelude.{◌≡◌, ◌≤◌, ◌^◌, OnOk, length};
ghost use Rattle.netlist_core.specs.Runs.{bits_at, q_bits};
ghost use Rattle.net_builder.specs.Building.{numbers_of};
ghost use Rattle.net_builder.specs.Stepping.{next_in, no_steps, with_step, after_start, after_starts, after_kept, after_all_kept, after_joints, joined_step};

use crate::builder::Joint;
use mcy_base::Word;
use netlist_core::{Bit, BitList, Port, Register};
use std::alloc::{AllocError, Global};
use std::marker::Model;

/// Where a net leads next.
#[derive(Clone, Copy, Debug, PartialEq, Eq)]
pub enum Step {
    /// It is itself in the netlist.
    Stays,
    /// It is a constant.
    Constant(bool),
    /// It is what another net is.
    On(u32),
}

/// The step of each net.
#[derive(Drop)]
pub(crate) struct Steps {
    table: Vec<Step>,
}

impl Model for Steps {
    ghost use Rattle.std.specs.Prelude.{List, length, ◌≤◌, ◌^◌};
    ghost use Rattle.net_builder.specs.declared.steps.Step.{Step};

    ghost Value = { List Step };

    ghost view = { λ s. s.table.items };

    ghost invariant = { λ s. length s.table.items ≤ 2 ^ 32 };
}

/// The step of a net that is joined to a bit.
fn joined(bit: Bit) -> Step
    ensures { result ≡ joined_step bit }
{
    match bit {
        Bit::Fixed(value) => Step::Constant(value),
        Bit::Net(net) => Step::On(net),
    }
}

impl Steps {
    /// Each net stays.
    pub(crate) fn new(alloc: Global) -> Steps
        ensures { next_in result ≡ no_steps }
    {
        Steps {
            table: Vec::new(alloc),
        }
    }

    /// How many nets the table has.
    pub(crate) fn len(&self) -> usize
        ensures long { result ≡ length self.now }
        ensures few { result ≤ 2 ^ 32 }
    {
        self.table.len()
    }

    /// The step of a net.
    pub(crate) fn of(&self, net: u32) -> Step
        ensures { result ≡ next_in self.now net }
    {
        match self.table.get(net as usize) {
            Some(step) => *step,
            None => Step::Stays,
        }
    }

    /// Gives a net a step.
    fn lay(&mut self, net: u32, step: Step) -> Result<(), AllocError>
        ensures { OnOk result (next_in self.new ≡ with_step net step (next_in self.old)) }
    {
        while self.table.len() <= net as usize {
            self.table.push(Step::Stays)?;
        }
        self.table[net as usize] = step;
        Ok(())
    }

    /// The bits of a signal are those of its start value.
    fn lay_start(&mut self, bits: &[Bit], start: u128) -> Result<(), AllocError>
        ensures { OnOk result (next_in self.new ≡ after_start bits.now start (next_in self.old)) }
    {
        let mut rest = start;
        for bit in bits {
            if let Bit::Net(net) = *bit {
                self.lay(net, Step::Constant(rest % 2 == 1))?;
            }
            rest /= 2;
        }
        Ok(())
    }

    /// The bits of each signal are those of its start value.
    pub(crate) fn lay_starts(
        &mut self,
        signals: &[BitList],
        starts: &[Word],
    ) -> Result<(), AllocError>
        requires { length signals.now ≡ length starts.now }
        ensures { OnOk result (next_in self.new ≡ after_starts signals.now (numbers_of starts.now) (next_in self.old)) }
    {
        for k in 0..signals.len() {
            self.lay_start(signals[k].as_slice(), starts[k].bits())?;
        }
        Ok(())
    }

    /// The nets of these bits stay.
    fn keep(&mut self, bits: &[Bit]) -> Result<(), AllocError>
        ensures { OnOk result (next_in self.new ≡ after_kept bits.now (next_in self.old)) }
    {
        for bit in bits {
            if let Bit::Net(net) = *bit {
                self.lay(net, Step::Stays)?;
            }
        }
        Ok(())
    }

    /// The nets of these inputs stay.
    pub(crate) fn keep_ports(&mut self, ports: &[Port]) -> Result<(), AllocError>
        ensures { OnOk result (next_in self.new ≡ after_all_kept (bits_at ports.now) (next_in self.old)) }
    {
        for port in ports {
            self.keep(port.bits.as_slice())?;
        }
        Ok(())
    }

    /// The nets of these registers' Q stay.
    pub(crate) fn keep_registers(&mut self, registers: &[Register]) -> Result<(), AllocError>
        ensures { OnOk result (next_in self.new ≡ after_all_kept (q_bits registers.now) (next_in self.old)) }
    {
        for register in registers {
            self.keep(register.q.as_slice())?;
        }
        Ok(())
    }

    /// The joined nets go on at what they are joined to, by the first joint that names them.
    pub(crate) fn lay_joints(&mut self, joints: &[Joint]) -> Result<(), AllocError>
        ensures { OnOk result (next_in self.new ≡ after_joints joints.now (next_in self.old)) }
    {
        let mut left = joints.len();
        while left > 0 {
            left -= 1;
            let joint = joints[left];
            self.lay(joint.net, joined(joint.bit))?;
        }
        Ok(())
    }
}
