//! Which bits of signals the indices of a left side read.
ghost use Rattle.std.specs.Prelude.{◌≡◌, ℕ, ◌||◌, map, OnOk};
ghost use Rattle.vlog_meaning.specs.Scopes.{names_of};
ghost use Rattle.vlog_effects.specs.LeftSides.{parts_of, concatenated};
ghost use Rattle.signal_masks.specs.Masks.{bits_in};
ghost use Rattle.signal_masks.specs.Parts.{AreFit, indices_read};

use crate::masks::Masks;
use crate::reads::reads_of;
use std::alloc::AllocError;
use vlog_meaning::Scope;
use vlog_syntax::LeftSide;

/// Adds the bits that the indices of a left side read.
#[cycle(reading)]
pub fn indices_of(left: &LeftSide, scope: &Scope, masks: &mut Masks) -> Result<(), AllocError>
    requires { AreFit (names_of scope.now) (parts_of left.now) }
    ensures { OnOk result ((n i : ℕ) → bits_in masks.new n i ≡ (bits_in masks.old n i || indices_read (names_of scope.now) (parts_of left.now) n i)) }
{
    match left {
        LeftSide::Name(_) => {}
        LeftSide::BitSelect(_, _, index) => reads_of(index.get(), scope, masks)?,
        LeftSide::PartSelect(..) => {}
        LeftSide::IndexedPartSelect(_, _, base, _) => reads_of(base.get(), scope, masks)?,
        LeftSide::Concatenation(_, parts) => indices_of_all(parts.as_slice(), scope, masks)?,
    }
    Ok(())
}

/// The same of several left sides.
#[cycle(reading)]
fn indices_of_all(parts: &[LeftSide], scope: &Scope, masks: &mut Masks) -> Result<(), AllocError>
    requires { AreFit (names_of scope.now) (concatenated (map parts_of parts.now)) }
    ensures { OnOk result ((n i : ℕ) → bits_in masks.new n i ≡ (bits_in masks.old n i || indices_read (names_of scope.now) (concatenated (map parts_of parts.now)) n i)) }
{
    for part in parts {
        indices_of(part, scope, masks)?;
    }
    Ok(())
}
