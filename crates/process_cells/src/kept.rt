//! Variables of a process with bits that are kept for them, and zeros in their place.
ghost use Rattle.std.specs.Prelude.{◌≡◌, ◌<◌, ◌∷◌, [], ◌++◌, map, length, IfOk, OnOk};
ghost use Rattle.net_builder.specs.Building.{signal, with_signal};
ghost use Rattle.process_cells.specs.Processes.{AllKnown, zeros, blank, kept_of, all_kept};

use net_builder::{Builder, copied_bits};
use netlist_core::{Bit, BitList};
use std::alloc::{AllocError, Global};

/// A variable, with bits that it has or had.
#[derive(Drop)]
pub struct Kept {
    pub number: u32,
    pub bits: BitList,
}

/// The bits that a variable has.
fn kept_of(builder: &Builder, number: u32) -> Result<Kept, AllocError>
    requires { number < length builder.now.signals }
    ensures { IfOk result (λ kept. kept ≡ kept_of builder.now number) }
{
    let bits = copied_bits(builder.alloc(), builder.bits(number))?;
    Ok(Kept { number, bits })
}

/// Adds a variable at the end.
fn push(variables: &mut Vec<Kept>, kept: Kept) -> Result<(), AllocError>
    ensures { OnOk result (variables.new.items ≡ variables.old.items ++ kept ∷ []) }
{
    variables.push(kept)?;
    Ok(())
}

/// The bits that variables have.
pub(crate) fn all_kept(builder: &Builder, numbers: &[u32]) -> Result<Vec<Kept>, AllocError>
    requires { AllKnown (length builder.now.signals) numbers.now }
    ensures { IfOk result (λ l. l.items ≡ all_kept builder.now numbers.now) }
{
    let mut variables = Vec::new(builder.alloc());
    let mut rest = numbers;
    while let [number, more @ ..] = rest {
        push(&mut variables, kept_of(builder, *number)?)?;
        rest = more;
    }
    Ok(variables)
}

/// As many zeros.
fn zeros(alloc: Global, bits: &[Bit]) -> Result<BitList, AllocError>
    ensures { IfOk result (λ found. found ≡ zeros bits.now) }
{
    let mut found = BitList::from_vec(Vec::new(alloc));
    let mut rest = bits;
    while let [_, more @ ..] = rest {
        found.push(Bit::Fixed(false))?;
        rest = more;
    }
    Ok(found)
}

/// Gives a variable zeros.
fn set_zeros(builder: &mut Builder, number: u32) -> Result<(), AllocError>
    requires { number < length builder.old.signals }
    ensures { OnOk result (builder.new ≡ with_signal number (zeros (signal builder.old number)) builder.old) }
{
    let bits = zeros(builder.alloc(), builder.bits(number))?;
    builder.set(number, bits);
    Ok(())
}

/// Gives variables zeros.
pub(crate) fn blank(builder: &mut Builder, numbers: &[u32]) -> Result<(), AllocError>
    requires { AllKnown (length builder.old.signals) numbers.now }
    ensures { OnOk result (builder.new ≡ blank numbers.now builder.old) }
{
    let mut rest = numbers;
    while let [number, more @ ..] = rest {
        set_zeros(builder, *number)?;
        rest = more;
    }
    Ok(())
}
