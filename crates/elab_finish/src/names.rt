//! The first register that has the name of one before it.
//!
//! The names of the registers that were gone over are kept in a set, so no two registers are compared.
ghost use Rattle.std.specs.Prelude.{List, ℕ, IfOk, MatchOption, MatchResult};
ghost use Rattle.net_builder.specs.Building.{Building};
ghost use Rattle.elab_finish.specs.Names.{AreNamedApart, HasMet, IsAgainAt, IsMet};
ghost use Rattle.elab_finish.specs.Refusals.{IsOver, IsWithin};

use crate::error::DesignError;
use mcy_base::Span;
use netlist_core::{RawNetlist, Register};
use std::alloc::{AllocError, Global};
use std::collections::BTreeSet;

/// Whether a name is one of those that were met; else it is met now.
fn is_met(alloc: Global, met: &mut BTreeSet<String>, name: &str) -> Result<bool, AllocError>
    ensures { (names : List (List ℕ)) → HasMet names met.old → IfOk result (IsMet names name.now met.new) }
{
    if met.contains(name) {
        return Ok(true);
    }
    let key = String::from_str(alloc, name)?;
    met.insert(key)?;
    Ok(false)
}

/// The place of the first register that has the name of one before it.
fn named_again(alloc: Global, registers: &[Register]) -> Result<Option<Span>, AllocError>
    ensures { IfOk result (λ found. MatchOption found (AreNamedApart registers.now) (IsAgainAt registers.now)) }
{
    let mut met = BTreeSet::new(alloc);
    for register in registers {
        if is_met(alloc, &mut met, register.name.as_str())? {
            return Ok(Some(register.span));
        }
    }
    Ok(None)
}

/// No two registers have one name.
pub(crate) fn test_names(alloc: Global, raw: &RawNetlist) -> Result<(), DesignError>
    ensures { (b : Building) → IsWithin raw.now → MatchResult result (λ _. AreNamedApart raw.now.registers) (IsOver b raw.now) }
{
    match named_again(alloc, raw.registers.as_slice())? {
        Some(span) => Err(DesignError::Twice(span)),
        None => Ok(()),
    }
}
