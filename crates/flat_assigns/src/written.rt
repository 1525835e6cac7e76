//! The bits that a left side writes, part by part from the left. Bits outside the declared range are left out.
ghost use Rattle.std.specs.Prelude.{◌≡◌, ◌∷◌, [], ◌++◌, IfOk, OnOk};
ghost use Rattle.vlog_meaning.specs.Scopes.{names_of};
ghost use Rattle.vlog_effects.specs.LeftSides.{parts_of};
ghost use Rattle.flat_assigns.specs.Bits.{targets_of};
ghost use Rattle.flat_assigns.specs.Parts.{bit_in, first_bits, slices_of};
ghost use Rattle.flat_assigns.specs.Sides.{slices};
ghost use Rattle.flat_assigns.specs.Writers.{bit_targets, targets};

use crate::scan::scan;
use crate::slice::Slice;
use mcy_base::Span;
use std::alloc::{AllocError, Global};
use vlog_meaning::Scope;
use vlog_syntax::LeftSide;

/// A bit that is written: the place of the name, the signal's number, and the bit's, from 0.
#[derive(Clone, Copy, Debug, PartialEq, Eq)]
pub struct WrittenBit {
    pub span: Span,
    pub signal: u32,
    pub bit: u8,
}

/// Lists bit k of a part, if it is in the declared range.
#[tactic(auto, using(crate::proofs::Listing::bit_listed, crate::proofs::Listing::bit_outside))]
fn list_bit(bits: &mut Vec<WrittenBit>, slice: Slice, k: u8) -> Result<(), AllocError>
    ensures { OnOk result (targets_of bits.new.items ≡ targets_of bits.old.items ++ bit_targets slice.span slice.signal (bit_in slice k ∷ [])) }
{
    match slice.bit(k) {
        Some(bit) => {
            bits.push(WrittenBit {
                span: slice.span,
                signal: slice.signal,
                bit,
            })?;
            Ok(())
        }
        None => Ok(()),
    }
}

/// Lists the bits of a part.
#[tactic(auto, using(crate::proofs::Listing::part_begun, crate::proofs::Listing::part_more))]
fn list_part(bits: &mut Vec<WrittenBit>, slice: Slice) -> Result<(), AllocError>
    ensures { OnOk result (targets_of bits.new.items ≡ targets_of bits.old.items ++ bit_targets slice.span slice.signal (first_bits slice slice.size)) }
{
    for k in 0..slice.size {
        list_bit(bits, slice, k)?;
    }
    Ok(())
}

/// The bits of parts.
#[tactic(auto, using(crate::proofs::Listing::parts_more))]
fn list_parts(alloc: Global, parts: &[Slice]) -> Result<Vec<WrittenBit>, AllocError>
    ensures { IfOk result (λ bits. targets_of bits.items ≡ targets (slices_of parts.now)) }
{
    let mut bits = Vec::new(alloc);
    for part in parts {
        list_part(&mut bits, *part)?;
    }
    Ok(bits)
}

/// The bits that a left side writes which is read in a scope. A part in which something is wrong has none.
pub fn written_bits(
    alloc: Global,
    left: &LeftSide,
    scope: &Scope,
) -> Result<Vec<WrittenBit>, AllocError>
    ensures { IfOk result (λ bits. targets_of bits.items ≡ targets (slices (names_of scope.now) (parts_of left.now))) }
{
    let mut parts = Vec::new(alloc);
    scan(alloc, &mut parts, scope, left)?;
    list_parts(alloc, &parts)
}
