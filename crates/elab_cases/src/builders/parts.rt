//! What statements add to a builder.
ghost use Rattle.std.specs.Prelude.{◌≡◌, ◌<◌, ◌≤◌, [], ◌∷◌, IfOk, length};
ghost use Rattle.net_builder.specs.Building.{signal};

use anyhow::{Context, Result, bail};
use mcy_base::{Span, Text, Word};
use net_builder::Builder;
use netlist_core::{Bit, BitList, CellKind, Port, PortList};
use std::alloc::{AllocError, Global};

/// The place of each part in the source.
const PLACE: Span = Span {
    file: 0,
    line: 1,
    col: 1,
};

/// The number in a text.
pub(crate) fn number_of(text: &str) -> Result<u32> {
    text.parse::<u32>().ok().context("no number")
}

/// A signal by its number.
fn signal_of(builder: &Builder, text: &str) -> Result<u32>
    ensures signals { IfOk result (λ k. k < length builder.now.signals) }
    ensures declared { IfOk result (λ k. k < length builder.now.declared) }
{
    let number = number_of(text)?;
    if number >= builder.signal_count() {
        bail!("no signal");
    }
    Ok(number)
}

/// The bit that a word gives.
fn bit_of(text: &str) -> Result<Bit> {
    match text {
        "low" => Ok(Bit::Fixed(false)),
        "high" => Ok(Bit::Fixed(true)),
        _ => Ok(Bit::Net(number_of(text)?)),
    }
}

/// The bits that a signal has.
fn bits_of(alloc: Global, builder: &Builder, number: u32) -> Result<BitList, AllocError>
    requires { number < length builder.now.signals }
    ensures { IfOk result (λ bits. bits ≡ signal builder.now number) }
{
    Ok(BitList::from_vec(builder.bits(number).to_vec(alloc)?))
}

/// Declares a signal.
pub(crate) fn declare(builder: &mut Builder, words: &str) -> Result<()> {
    let (name, width) = words.split_once(' ').context("no width")?;
    let width = width.parse::<u8>().ok().context("no width")?;
    if width < 1 || width > 128 || builder.signal_bits() > 4_000_000 {
        bail!("no such signal");
    }
    builder.signal(name, PLACE, width)?;
    Ok(())
}

/// Gives a signal a start value.
pub(crate) fn start(builder: &mut Builder, words: &str) -> Result<()> {
    let (number, value) = words.split_once(' ').context("no start value")?;
    let number = signal_of(builder, number)?;
    let value = value.parse::<u128>().ok().context("no start value")?;
    let width = builder.start(number).width();
    builder.set_start(number, Word::new(width, value).context("no start value")?);
    Ok(())
}

/// Joins a net to a bit.
pub(crate) fn join(builder: &mut Builder, words: &str) -> Result<()> {
    let (net, bit) = words.split_once(' ').context("no bit")?;
    builder.join(number_of(net)?, bit_of(bit)?)?;
    Ok(())
}

/// Adds a register.
pub(crate) fn register(alloc: Global, builder: &mut Builder, words: &str) -> Result<()> {
    let (q, d) = words.split_once(' ').context("no D")?;
    let number = signal_of(builder, q)?;
    let d = signal_of(builder, d)?;
    let d = bits_of(alloc, builder, d)?;
    let q = bits_of(alloc, builder, number)?;
    let name = Text::copy(alloc, builder.name(number))?;
    let start = builder.start(number);
    if d.as_slice().len() != usize::from(start.width()) {
        bail!("D has not the width of Q");
    }
    builder.register(name.as_str(), PLACE, d, q, start)?;
    Ok(())
}

/// A cell's ports, where there is one input.
fn one_input(alloc: Global, bits: BitList) -> Result<PortList, AllocError>
    ensures { IfOk result (λ ports. ports ≡ bits ∷ []) }
{
    let mut ports = Vec::new(alloc);
    ports.push(bits)?;
    Ok(PortList::from_vec(ports))
}

/// Adds a cell that inverts a signal.
pub(crate) fn invert(alloc: Global, builder: &mut Builder, words: &str) -> Result<()> {
    let number = signal_of(builder, words)?;
    let width = builder.start(number).width();
    let inputs = one_input(alloc, bits_of(alloc, builder, number)?)?;
    match builder.cell(CellKind::Not, false, inputs, width, PLACE) {
        Ok(_) => Ok(()),
        Err(_) => bail!("no cell"),
    }
}

/// A port with a signal's name and bits.
pub(crate) fn port_of(alloc: Global, builder: &Builder, words: &str) -> Result<Port> {
    let number = signal_of(builder, words)?;
    Ok(Port {
        name: Text::copy(alloc, builder.name(number))?,
        bits: bits_of(alloc, builder, number)?,
    })
}
