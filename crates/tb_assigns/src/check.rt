//! Whether an assignment can be carried out.
ghost use Rattle.std.specs.Prelude.{◌≡◌, ◌&&◌, true, map, IfOk};
ghost use Rattle.vlog_meaning.specs.Scopes.{names_of};
ghost use Rattle.vlog_effects.specs.LeftSides.{vector_of, parts_of, concatenated};
ghost use Rattle.tb_assigns.specs.Checks.{has_shape, is_signal, all_signals, can_assign};
ghost use Rattle.tb_assigns.specs.Updates.{CanAssign};

use elab_proc::same_form;
use std::alloc::{AllocError, Global};
use vlog_meaning::{Decl, Scope, fault_in};
use vlog_syntax::{Assignment, Expr, Identifier, LeftSide};

/// Whether an expression has a shape.
fn has_shape(expr: &Expr, scope: &Scope) -> bool
    ensures { result ≡ has_shape (names_of scope.now) expr.now }
{
    match fault_in(expr, scope) {
        None => true,
        Some(_) => false,
    }
}

/// Whether a name is that of a signal.
fn is_signal(name: &Identifier, scope: &Scope) -> bool
    ensures { result ≡ is_signal (vector_of (names_of scope.now name.now.name)) }
{
    match scope.get(name.name.as_str()) {
        Some(Decl::Signal { .. }) => true,
        Some(Decl::Constant { .. }) => false,
        None => false,
    }
}

/// Whether both are so.
fn both(first: bool, second: bool) -> bool
    ensures { result ≡ (first && second) }
{
    first && second
}

/// Whether a left side names signals alone.
#[cycle(names)]
fn names_signals(left: &LeftSide, scope: &Scope) -> bool
    ensures { result ≡ all_signals (names_of scope.now) (parts_of left.now) }
{
    match left {
        LeftSide::Name(name)
        | LeftSide::BitSelect(name, ..)
        | LeftSide::PartSelect(name, ..)
        | LeftSide::IndexedPartSelect(name, ..) => is_signal(name, scope),
        LeftSide::Concatenation(_, parts) => all_name_signals(parts.as_slice(), scope),
    }
}

/// The same of several left sides.
#[cycle(names)]
fn all_name_signals(parts: &[LeftSide], scope: &Scope) -> bool
    ensures { result ≡ all_signals (names_of scope.now) (concatenated (map parts_of parts.now)) }
{
    let mut found = true;
    for part in parts {
        found = both(found, names_signals(part, scope));
    }
    found
}

/// Whether an assignment can be carried out: both sides have shapes, and the left one names signals.
pub fn can_assign(alloc: Global, assignment: &Assignment, scope: &Scope) -> Result<bool, AllocError>
    ensures value { IfOk result (λ b. b ≡ can_assign (names_of scope.now) assignment.now) }
    ensures can { IfOk result (λ b. b ≡ true → CanAssign (names_of scope.now) assignment.now) }
{
    let left = same_form(alloc, &assignment.left)?;
    let is_whole = has_shape(&left, scope);
    let are_signals = names_signals(&assignment.left, scope);
    let is_right_whole = has_shape(assignment.value.get(), scope);
    Ok(both(is_whole, both(are_signals, is_right_whole)))
}
