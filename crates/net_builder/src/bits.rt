//! Bits that are copied.
ghost use Rattle.std.specs.Prelude.{◌≡◌, IfOk};

use netlist_core::{Bit, BitList};
use std::alloc::{AllocError, Global};

/// The same bits.
pub fn copied_bits(alloc: Global, bits: &[Bit]) -> Result<BitList, AllocError>
    ensures { IfOk result (λ found. found ≡ bits.now) }
{
    Ok(BitList::from_vec(bits.to_vec(alloc)?))
}
