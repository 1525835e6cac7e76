//! The ports of the top, in the order of its head.
ghost use Rattle.std.specs.Prelude.{◌≡◌, option_to_list, slice_get, IfOk};
ghost use Rattle.flat_scopes.specs.Wires.{ports_of};
ghost use Rattle.flat_items.specs.Tops.{own_at, own_in};
ghost use Rattle.flat_items.specs.Views.{flat_of};
ghost use Rattle.elab_items.specs.Designs.{has_direction, direction_in, port_number, port_numbers};
ghost use Rattle.elab_hier.specs.Parts.{IsTop};

use crate::flags::flags_of;
use flat_items::Flat;
use flat_scopes::{Lent, Signal, What, ports_of};
use std::alloc::{AllocError, Global};
use vlog_syntax::{Direction, Identifier, Module};

/// The numbers of the top's inputs and outputs, and for each signal whether it is an input.
#[derive(Drop)]
pub(crate) struct Top {
    pub(crate) inputs: Vec<u32>,
    pub(crate) outputs: Vec<u32>,
    pub(crate) flags: Vec<bool>,
}

/// Whether the signal of this number is a port of the direction.
fn has_direction(signals: &[Signal], direction: Direction, number: u32) -> bool
    ensures { result ≡ has_direction direction (direction_in (slice_get signals.now number)) }
{
    match signals.get(number as usize) {
        Some(signal) => match (direction, signal.direction) {
            (Direction::Input, Some(Direction::Input)) => true,
            (Direction::Output, Some(Direction::Output)) => true,
            _ => false,
        },
        None => false,
    }
}

/// The number of a port, if it has the direction.
fn port_number(flat: &Flat<'_>, direction: Direction, port: &Identifier) -> Option<u32>
    ensures { option_to_list result ≡ port_number direction (flat_of flat.now).signals (own_at (flat_of flat.now).places 0 port.now.name) }
{
    match flat.own(0, port.name.as_str()) {
        Some(What::Variable(number)) => {
            if has_direction(flat.signals(), direction, number) {
                Some(number)
            } else {
                None
            }
        }
        _ => None,
    }
}

/// The numbers of the ports that have the direction.
fn port_numbers(
    alloc: Global,
    flat: &Flat<'_>,
    direction: Direction,
    ports: &[Lent<'_, Identifier>],
) -> Result<Vec<u32>, AllocError>
    ensures { IfOk result (λ v. v.items ≡ port_numbers direction (flat_of flat.now).signals (own_in (slice_get (flat_of flat.now).places 0)) ports.now) }
{
    let mut numbers = Vec::new(alloc);
    for port in ports {
        if let Some(number) = port_number(flat, direction, port.get()) {
            numbers.push(number)?;
        }
    }
    Ok(numbers)
}

/// The ports of the module that is the top.
pub(crate) fn top_ports(
    alloc: Global,
    flat: &Flat<'_>,
    declaration: &Module,
) -> Result<Top, AllocError>
    ensures { IfOk result (λ top. IsTop (flat_of flat.now) (ports_of declaration.now.ports) top) }
{
    let ports = ports_of(alloc, &declaration.ports)?;
    let inputs = port_numbers(alloc, flat, Direction::Input, ports.as_slice())?;
    let outputs = port_numbers(alloc, flat, Direction::Output, ports.as_slice())?;
    let flags = flags_of(alloc, flat.signals().len(), inputs.as_slice())?;
    Ok(Top {
        inputs,
        outputs,
        flags,
    })
}
