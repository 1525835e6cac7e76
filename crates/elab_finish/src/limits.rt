//! Whether a netlist has too many bits.
ghost use Rattle.std.specs.Prelude.{MatchResult};
ghost use Rattle.net_builder.specs.Building.{Building};
ghost use Rattle.elab_finish.specs.Refusals.{IsWithin, IsOver};

use crate::error::DesignError;
use mcy_base::Kind;
use netlist_core::{RawNetlist, net_bits, register_bits};

/// The most bits that inputs, outputs, registers and cells' Y may have together.
const MAX_NET_BITS: usize = 1_048_576;

/// The most bits that registers may have.
const MAX_REGISTER_BITS: usize = 4_096;

/// There are not too many net bits, nor register bits.
pub(crate) fn test_limits(raw: &RawNetlist) -> Result<(), DesignError>
    ensures { (b : Building) → MatchResult result (λ _. IsWithin raw.now) (IsOver b raw.now) }
{
    if net_bits(raw) > MAX_NET_BITS {
        return Err(DesignError::TooMany(Kind::NetBits));
    }
    if register_bits(raw.registers.as_slice()) > MAX_REGISTER_BITS {
        return Err(DesignError::TooMany(Kind::RegisterBits));
    }
    Ok(())
}
