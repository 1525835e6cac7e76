//! Rows of one bit, and bits of rows.
ghost use Rattle.std.specs.Prelude.{◌≡◌, ◌∷◌, [], IfOk};
ghost use Rattle.gate_list.specs.Folding.{negated_if};
ghost use Rattle.gate_list.specs.Gates.{count, IsLit};
ghost use Rattle.cell_gates.specs.CellRows.{first_lit, top_lit};

use gate_list::{GateList, GateLit};
use std::alloc::{AllocError, Global};

/// The row of one literal, negated where that is wanted.
pub(crate) fn one_bit(
    alloc: Global,
    negate: bool,
    lit: GateLit,
    gates: &GateList,
) -> Result<Vec<GateLit>, AllocError>
    requires { IsLit (count gates.now) lit }
    ensures { IfOk result (λ found. found.items ≡ negated_if negate lit ∷ []) }
{
    // Both are small, so a negated literal is a number of its type.
    let _ = gates.free() + gates.len();
    let mut found = Vec::new(alloc);
    found.push(lit.negated_if(negate))?;
    Ok(found)
}

/// Bit 0 of a row.
pub(crate) fn first_lit(bits: &[GateLit]) -> GateLit
    ensures { result ≡ first_lit bits.now }
{
    match bits {
        [] => GateLit::Fixed(false),
        [first, ..] => *first,
    }
}

/// The top bit of a row.
pub(crate) fn top_lit(bits: &[GateLit]) -> GateLit
    ensures { result ≡ top_lit bits.now }
{
    if bits.is_empty() {
        return GateLit::Fixed(false);
    }
    bits[bits.len() - 1]
}
