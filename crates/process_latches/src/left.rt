//! What a left side assigns, and what its indices read.
ghost use Rattle.std.specs.Prelude.{◌≡◌, [], ◌∷◌, map, OnOk};
ghost use Rattle.vlog_syntax.specs.declared.left_side.LeftSide.TheVariants as l;
ghost use Rattle.vlog_meaning.specs.Scopes.{names_of};
ghost use Rattle.vlog_effects.specs.LeftSides.{Part, parts_of, concatenated};
ghost use Rattle.elab_proc.specs.Refusals.{AreSized};
ghost use Rattle.signal_masks.specs.Parts.{AreFit};
ghost use Rattle.process_latches.specs.Marking.{BitsAdded, WriteAdded, PartsAdded, IsPart};
ghost use Rattle.process_latches.specs.Sound.{sound_part};

use crate::marks::{Marks, Write};
use elab_proc::{own_fault, same_form};
use mcy_base::Span;
use signal_masks::{covered_by, indices_of};
use std::alloc::{AllocError, Global};
use vlog_meaning::{Decl, Scope};
use vlog_syntax::{Identifier, LeftSide};

/// How a left side is assigned: the first token of the assignment, and its kind.
#[derive(Clone, Copy)]
pub(crate) struct Manner {
    pub first: Span,
    pub is_blocking: bool,
}

/// Adds the bits that a left side with a shape assigns, and those that its indices read.
fn mark_bits(left: &LeftSide, scope: &Scope, marks: &mut Marks) -> Result<(), AllocError>
    requires { AreFit (names_of scope.now) (parts_of left.now) }
    ensures { OnOk result (BitsAdded (names_of scope.now) (parts_of left.now) marks.old marks.new) }
{
    indices_of(left, scope, &mut marks.early)?;
    covered_by(left, scope, &mut marks.covered)?;
    Ok(())
}

/// Adds the bits of a whole name.
fn mark_name(
    alloc: Global,
    name: &Identifier,
    scope: &Scope,
    marks: &mut Marks,
) -> Result<(), AllocError>
    requires { AreSized (names_of scope.now) }
    ensures { OnOk result (BitsAdded (names_of scope.now) (parts_of (l.Name name.now)) marks.old marks.new) }
{
    let whole = LeftSide::Name(name.copy(alloc)?);
    mark_bits(&whole, scope, marks)?;
    Ok(())
}

/// Adds the bits of a part of a left side, which is one of this name: where it is refused it is the whole name.
fn mark_select(
    alloc: Global,
    left: &LeftSide,
    name: &Identifier,
    scope: &Scope,
    marks: &mut Marks,
) -> Result<(), AllocError>
    requires sized { AreSized (names_of scope.now) }
    requires part { (p : Part) × IsPart left.now name.now p }
    ensures { OnOk result ((p : Part) → IsPart left.now name.now p → BitsAdded (names_of scope.now) (sound_part (names_of scope.now) p ∷ []) marks.old marks.new) }
{
    let form = same_form(alloc, left)?;
    match own_fault(&form, scope) {
        Some(_) => mark_name(alloc, name, scope, marks),
        None => mark_bits(left, scope, marks),
    }
}

/// Adds the variable of a name that is assigned.
fn mark_write(
    name: &Identifier,
    manner: Manner,
    scope: &Scope,
    marks: &mut Marks,
) -> Result<(), AllocError>
    ensures { OnOk result (WriteAdded (names_of scope.now) manner name.now marks.old marks.new) }
{
    match scope.get(name.name.as_str()) {
        Some(Decl::Signal { width, number, .. }) => {
            marks.writes.push(Write {
                number,
                width,
                place: name.span,
                first: manner.first,
                is_blocking: manner.is_blocking,
            })?;
            Ok(())
        }
        Some(Decl::Constant { .. }) => Ok(()),
        None => Ok(()),
    }
}

/// Adds a part of a left side, which is one of this name.
fn mark_part(
    alloc: Global,
    left: &LeftSide,
    name: &Identifier,
    manner: Manner,
    scope: &Scope,
    marks: &mut Marks,
) -> Result<(), AllocError>
    requires sized { AreSized (names_of scope.now) }
    requires part { (p : Part) × IsPart left.now name.now p }
    ensures { OnOk result (PartsAdded (names_of scope.now) manner (map (sound_part (names_of scope.now)) (parts_of left.now)) marks.old marks.new) }
{
    mark_select(alloc, left, name, scope, marks)?;
    mark_write(name, manner, scope, marks)?;
    Ok(())
}

/// Adds the parts of a left side.
#[cycle(parts)]
pub(crate) fn mark_left(
    alloc: Global,
    left: &LeftSide,
    manner: Manner,
    scope: &Scope,
    marks: &mut Marks,
) -> Result<(), AllocError>
    requires { AreSized (names_of scope.now) }
    ensures { OnOk result (PartsAdded (names_of scope.now) manner (map (sound_part (names_of scope.now)) (parts_of left.now)) marks.old marks.new) }
{
    match left {
        LeftSide::Name(name) => mark_part(alloc, left, name, manner, scope, marks),
        LeftSide::BitSelect(name, _, _) => mark_part(alloc, left, name, manner, scope, marks),
        LeftSide::PartSelect(name, _, _, _) => mark_part(alloc, left, name, manner, scope, marks),
        LeftSide::IndexedPartSelect(name, _, _, _) => {
            mark_part(alloc, left, name, manner, scope, marks)
        }
        LeftSide::Concatenation(_, parts) => {
            mark_lefts(alloc, parts.as_slice(), manner, scope, marks)
        }
    }
}

/// Adds the parts of several left sides.
#[cycle(parts)]
fn mark_lefts(
    alloc: Global,
    lefts: &[LeftSide],
    manner: Manner,
    scope: &Scope,
    marks: &mut Marks,
) -> Result<(), AllocError>
    requires { AreSized (names_of scope.now) }
    ensures { OnOk result (PartsAdded (names_of scope.now) manner (map (sound_part (names_of scope.now)) (concatenated (map parts_of lefts.now))) marks.old marks.new) }
{
    for left in lefts {
        mark_left(alloc, left, manner, scope, marks)?;
    }
    Ok(())
}
