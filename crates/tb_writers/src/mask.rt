//! Which bits a part of a left side writes.
ghost use Rattle.std.specs.Prelude.{◌≡◌, ◌&&◌, IfOk};
ghost use Rattle.vlog_syntax.specs.declared.left_side.LeftSide.TheVariants as l;
ghost use Rattle.vlog_meaning.specs.Scopes.{names_of};
ghost use Rattle.vlog_meaning.specs.Senses.{sense, is_empty};
ghost use Rattle.vlog_effects.specs.Latches.{parts_cover};
ghost use Rattle.vlog_effects.specs.LeftSides.{Part, part_vector, parts_of};
ghost use Rattle.elab_proc.specs.Refusals.{AreSized, same_form};
ghost use Rattle.signal_masks.specs.Masks.{bits_in};
ghost use Rattle.signal_masks.specs.Parts.{AreFit};
ghost use Rattle.process_latches.specs.Marking.{IsPart};
ghost use Rattle.tb_writers.specs.Writes.{is_constant as constant, is_placed as placed, untold_bits, part_writes};

use crate::writers::Writer;
use elab_proc::same_form;
use signal_masks::{Masks, covered_by};
use std::alloc::{AllocError, Global};
use vlog_meaning::{Scope, constant_fault, fault_in};
use vlog_syntax::{Expr, Identifier, LeftSide};

/// The bits that a left side assigns for sure.
fn covered(alloc: Global, left: &LeftSide, scope: &Scope) -> Result<Masks, AllocError>
    requires { AreFit (names_of scope.now) (parts_of left.now) }
    ensures { IfOk result (λ masks. bits_in masks ≡ parts_cover (names_of scope.now) (parts_of left.now)) }
{
    let mut masks = Masks::new(alloc);
    covered_by(left, scope, &mut masks)?;
    Ok(masks)
}

/// Whether an expression is a constant.
pub(crate) fn is_constant(expr: &Expr, scope: &Scope) -> bool
    ensures { result ≡ constant (names_of scope.now) expr.now }
{
    match constant_fault(expr, scope) {
        None => true,
        Some(_) => false,
    }
}

/// Whether an expression has a shape.
fn has_shape(expr: &Expr, scope: &Scope) -> bool
    ensures { result ≡ is_empty (sense (names_of scope.now) expr.now).faults }
{
    match fault_in(expr, scope) {
        None => true,
        Some(_) => false,
    }
}

/// Whether the bits of a left side can be told.
fn is_told(
    alloc: Global,
    left: &LeftSide,
    is_placed: bool,
    scope: &Scope,
) -> Result<bool, AllocError>
    ensures { IfOk result (λ b. b ≡ (is_placed && is_empty (sense (names_of scope.now) (same_form left.now)).faults)) }
{
    let form = same_form(alloc, left)?;
    Ok(is_placed && has_shape(&form, scope))
}

/// The bits of a whole name.
fn name_masks(alloc: Global, name: &Identifier, scope: &Scope) -> Result<Masks, AllocError>
    requires { AreSized (names_of scope.now) }
    ensures { IfOk result (λ masks. bits_in masks ≡ parts_cover (names_of scope.now) (parts_of (l.Name name.now))) }
{
    let whole = LeftSide::Name(name.copy(alloc)?);
    covered(alloc, &whole, scope)
}

/// The bits that a part of this name writes whose bits cannot be told: none by a net, which is refused, and all by a process.
fn untold_masks(
    alloc: Global,
    kind: Writer,
    name: &Identifier,
    scope: &Scope,
) -> Result<Masks, AllocError>
    requires { AreSized (names_of scope.now) }
    ensures { IfOk result (λ masks. (p : Part) → p.name ≡ name.now → bits_in masks ≡ untold_bits (names_of scope.now) kind p (part_vector (names_of scope.now) p)) }
{
    match kind {
        Writer::Net => Ok(Masks::new(alloc)),
        Writer::Process => name_masks(alloc, name, scope),
    }
}

/// The bits that a part of a left side writes, which is one of this name, and whose place is a constant or not.
pub(crate) fn part_masks(
    alloc: Global,
    kind: Writer,
    left: &LeftSide,
    name: &Identifier,
    is_placed: bool,
    scope: &Scope,
) -> Result<Masks, AllocError>
    requires sized { AreSized (names_of scope.now) }
    requires part { (p : Part) × (IsPart left.now name.now p × (is_placed ≡ placed (names_of scope.now) p.select)) }
    ensures { IfOk result (λ masks. (p : Part) → IsPart left.now name.now p → is_placed ≡ placed (names_of scope.now) p.select → bits_in masks ≡ part_writes (names_of scope.now) kind p) }
{
    if is_told(alloc, left, is_placed, scope)? {
        covered(alloc, left, scope)
    } else {
        untold_masks(alloc, kind, name, scope)
    }
}
