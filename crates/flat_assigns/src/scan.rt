//! Reading a left side: what is wrong with the names and indices of its parts, and the parts in which nothing is wrong, from
//! the left.
ghost use Rattle.std.specs.Prelude.{◌≡◌, ◌++◌, map, IfOk, OnOk};
ghost use Rattle.vlog_meaning.specs.Answers.{least};
ghost use Rattle.vlog_meaning.specs.Scopes.{names_of};
ghost use Rattle.vlog_meaning.specs.Senses.{sense, constant_faults};
ghost use Rattle.vlog_effects.specs.LeftSides.{parts_of, concatenated};
ghost use Rattle.flat_assigns.specs.Parts.{IsName, IsIndexed, IsRange, IsScanned, listed};
ghost use Rattle.flat_assigns.specs.Sides.{constant_target};

use crate::slice::Slice;
use elab_proc::same_form;
use expr_plans::bound_of;
use std::alloc::{AllocError, Global};
use vlog_meaning::{Cause, Decl, Fault, Scope, constant_fault, earlier, fault_in, shape_of};
use vlog_syntax::{Expr, Identifier, LeftSide};

/// A name that is written and is a constant.
#[tactic(auto, unfolding(vlog_meaning::specs::Answers::earlier, vlog_meaning::specs::Answers::least))]
fn constant_target(scope: &Scope, name: &Identifier) -> Option<Fault>
    ensures { result ≡ least (constant_target name.now.span (names_of scope.now name.now.name)) }
{
    match scope.get(name.name.as_str()) {
        Some(Decl::Constant { .. }) => Some(Fault {
            cause: Cause::Unknown,
            span: name.span,
        }),
        Some(Decl::Signal { .. }) | None => None,
    }
}

/// What is wrong with a name that is written at an index.
fn index_target(scope: &Scope, name: &Identifier, index: &Expr) -> Option<Fault>
    ensures { result ≡ least (constant_target name.now.span (names_of scope.now name.now.name) ++ constant_faults (sense (names_of scope.now) index.now)) }
{
    earlier(constant_target(scope, name), constant_fault(index, scope))
}

/// Keeps a part.
fn keep(slices: &mut Vec<Slice>, slice: Option<Slice>) -> Result<(), AllocError>
    ensures { OnOk result (slices.new.items ≡ slices.old.items ++ listed slice) }
{
    match slice {
        Some(slice) => Ok(slices.push(slice)?),
        None => Ok(()),
    }
}

/// `name`
fn whole(
    alloc: Global,
    slices: &mut Vec<Slice>,
    scope: &Scope,
    left: &LeftSide,
    name: &Identifier,
) -> Result<Option<Fault>, AllocError>
    requires { IsName left.now name.now }
    ensures { IfOk result (λ found. IsScanned (names_of scope.now) slices.old.items slices.new.items (parts_of left.now) found) }
{
    let form = same_form(alloc, left)?;
    let target = constant_target(scope, name);
    match earlier(fault_in(&form, scope), target) {
        Some(_) => Ok(target),
        None => {
            keep(slices, Slice::whole(scope, name))?;
            Ok(target)
        }
    }
}

/// `name[index]` or `name[index +: count]`
fn indexed(
    alloc: Global,
    slices: &mut Vec<Slice>,
    scope: &Scope,
    left: &LeftSide,
    name: &Identifier,
    index: &Expr,
) -> Result<Option<Fault>, AllocError>
    requires { IsIndexed left.now name.now index.now }
    ensures { IfOk result (λ found. IsScanned (names_of scope.now) slices.old.items slices.new.items (parts_of left.now) found) }
{
    let form = same_form(alloc, left)?;
    let target = index_target(scope, name, index);
    match earlier(fault_in(&form, scope), target) {
        Some(_) => Ok(target),
        None => {
            let size = shape_of(&form, scope).width;
            keep(slices, Slice::of(scope, name, bound_of(index, scope), size))?;
            Ok(target)
        }
    }
}

/// `name[msb:lsb]`
fn range(
    alloc: Global,
    slices: &mut Vec<Slice>,
    scope: &Scope,
    left: &LeftSide,
    name: &Identifier,
    lsb: &Expr,
) -> Result<Option<Fault>, AllocError>
    requires { IsRange left.now name.now lsb.now }
    ensures { IfOk result (λ found. IsScanned (names_of scope.now) slices.old.items slices.new.items (parts_of left.now) found) }
{
    let form = same_form(alloc, left)?;
    let target = constant_target(scope, name);
    match earlier(fault_in(&form, scope), target) {
        Some(_) => Ok(target),
        None => {
            let size = shape_of(&form, scope).width;
            keep(slices, Slice::of(scope, name, bound_of(lsb, scope), size))?;
            Ok(target)
        }
    }
}

/// Reads a left side.
#[cycle(scan)]
pub(crate) fn scan(
    alloc: Global,
    slices: &mut Vec<Slice>,
    scope: &Scope,
    left: &LeftSide,
) -> Result<Option<Fault>, AllocError>
    ensures { IfOk result (λ found. IsScanned (names_of scope.now) slices.old.items slices.new.items (parts_of left.now) found) }
{
    match left {
        LeftSide::Name(name) => whole(alloc, slices, scope, left, name),
        LeftSide::BitSelect(name, _, index) => {
            indexed(alloc, slices, scope, left, name, index.get())
        }
        LeftSide::PartSelect(name, _, _, lsb) => {
            range(alloc, slices, scope, left, name, lsb.get())
        }
        LeftSide::IndexedPartSelect(name, _, base, _) => {
            indexed(alloc, slices, scope, left, name, base.get())
        }
        LeftSide::Concatenation(_, parts) => scan_all(alloc, slices, scope, parts.as_slice()),
    }
}

/// Reads several left sides, one after the other.
#[cycle(scan)]
fn scan_all(
    alloc: Global,
    slices: &mut Vec<Slice>,
    scope: &Scope,
    parts: &[LeftSide],
) -> Result<Option<Fault>, AllocError>
    ensures { IfOk result (λ found. IsScanned (names_of scope.now) slices.old.items slices.new.items (concatenated (map parts_of parts.now)) found) }
{
    let mut found = None;
    for part in parts {
        found = earlier(found, scan(alloc, slices, scope, part)?);
    }
    Ok(found)
}
