//! The literals of nets, in a table by net.
//!
//! Contracts see the table as a list; a net past its end is 0.
ghost use Rattle.std.specs.Prelude.{◌≡◌, ◌<◌, ◌≤◌, ◌++◌, ◌∷◌, [], IfOk, OnOk, length};
ghost use Rattle.netlist_core.specs.Below.{AllBelow};
ghost use Rattle.netlist_gates.specs.NetLits.{lits_of, bit_lit, bits_lits, ports_lits, with_lit, laid_lits};

use cell_gates::GateBits;
use gate_list::GateLit;
use netlist_core::{Bit, BitList};
use std::alloc::{AllocError, Global};
use std::marker::Model;

/// The literal of each net, by its number.
#[derive(Drop)]
pub struct NetLits {
    table: Vec<GateLit>,
}

impl Model for NetLits {
    ghost use Rattle.std.specs.Prelude.{List};
    ghost use Rattle.gate_list.specs.declared.literal.GateLit.{GateLit};

    ghost Value = { List GateLit };

    ghost view = { λ s. s.table.items };
}

impl NetLits {
    /// The table with these literals.
    pub(crate) fn of(table: Vec<GateLit>) -> NetLits
        ensures { result ≡ table.items }
    {
        NetLits { table }
    }

    /// Adds the literals at bits to a row.
    pub fn read(&self, bits: &[Bit], row: &mut Vec<GateLit>) -> Result<(), AllocError>
        ensures { OnOk result (row.new.items ≡ row.old.items ++ bits_lits (lits_of self.now) bits.now) }
    {
        add_row(self.table.as_slice(), bits, row)
    }
}

/// The literal at a bit.
fn literal_at(table: &[GateLit], bit: Bit) -> GateLit
    ensures { result ≡ bit_lit (lits_of table.now) bit }
{
    match bit {
        Bit::Fixed(value) => GateLit::Fixed(value),
        Bit::Net(net) => match table.get(net as usize) {
            Some(literal) => *literal,
            None => GateLit::Fixed(false),
        },
    }
}

/// Adds the literals at bits to a row.
fn add_row(table: &[GateLit], bits: &[Bit], row: &mut Vec<GateLit>) -> Result<(), AllocError>
    ensures { OnOk result (row.new.items ≡ row.old.items ++ bits_lits (lits_of table.now) bits.now) }
{
    for bit in bits {
        row.push(literal_at(table, *bit))?;
    }
    Ok(())
}

/// The literals at bits.
fn row_at(alloc: Global, table: &[GateLit], bits: &[Bit]) -> Result<GateBits, AllocError>
    ensures { IfOk result (λ row. row ≡ bits_lits (lits_of table.now) bits.now) }
{
    let mut row = Vec::new(alloc);
    add_row(table, bits, &mut row)?;
    Ok(GateBits::from_vec(row))
}

/// The literals at ports.
pub(crate) fn rows_at(
    alloc: Global,
    table: &[GateLit],
    ports: &[BitList],
) -> Result<Vec<GateBits>, AllocError>
    ensures { IfOk result (λ rows. rows.items ≡ ports_lits (lits_of table.now) ports.now) }
{
    let mut rows = Vec::new(alloc);
    for port in ports {
        rows.push(row_at(alloc, table, port.as_slice())?)?;
    }
    Ok(rows)
}

/// Gives a bit's net a literal.
pub(crate) fn set(table: &mut Vec<GateLit>, bit: Bit, literal: GateLit)
    requires { AllBelow (length table.old.items) (bit ∷ []) }
    ensures set { lits_of table.new.items ≡ with_lit (lits_of table.old.items) bit literal }
    ensures long { length table.new.items ≡ length table.old.items }
{
    match bit {
        Bit::Fixed(_) => {}
        Bit::Net(net) => table[net as usize] = literal,
    }
}

/// Gives the nets of bits the literals of a row.
pub(crate) fn lay(table: &mut Vec<GateLit>, bits: &[Bit], row: &[GateLit])
    requires { AllBelow (length table.old.items) bits.now }
    ensures laid { lits_of table.new.items ≡ laid_lits (lits_of table.old.items) bits.now row.now }
    ensures long { length table.new.items ≡ length table.old.items }
{
    match bits {
        [] => {}
        [bit, bits @ ..] => match row {
            [] => {}
            [literal, row @ ..] => {
                set(table, *bit, *literal);
                lay(table, bits, row);
            }
        },
    }
}
