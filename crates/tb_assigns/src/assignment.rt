//! The updates of an assignment.
ghost use Rattle.std.specs.Prelude.{◌≡◌, ◌≤◌, IfOk};
ghost use Rattle.vlog_meaning.specs.Scopes.{names_of, store_of, FitsSignals};
ghost use Rattle.vlog_meaning.specs.Senses.{sense, assigned, IsWhole, IsContext};
ghost use Rattle.tb_assigns.specs.Updates.{CanAssign, updates};

use crate::left_side::{left_width, push_pieces};
use crate::writing::updates_of;
use rand_pcg::Lcg64Xsh32;
use std::alloc::AllocError;
use tb_machine::Update;
use tb_values::{Moment, evaluate};
use vlog_meaning::{Scope, Shape, shape_of};
use vlog_syntax::{Assignment, Expr};

/// The size at which a right side is evaluated that is assigned to so many bits.
pub fn context_of(right: &Expr, width: u8, scope: &Scope) -> Shape
    requires whole { IsWhole (names_of scope.now) right.now }
    requires narrow { width ≤ 128 }
    ensures size { result ≡ assigned (sense (names_of scope.now) right.now) width }
    ensures context { IsContext (sense (names_of scope.now) right.now).shape result }
{
    let shape = shape_of(right, scope);
    Shape {
        width: shape.width.max(width),
        is_signed: shape.is_signed,
    }
}

/// The updates of an assignment, in the order in which they apply (IEEE 1364-2005, 9.2). The right side is evaluated, and then
/// the indices of the left side. An index out of range writes nothing.
pub fn updates(
    assignment: &Assignment,
    moment: &Moment<'_>,
    words: &mut Lcg64Xsh32,
) -> Result<Vec<Update>, AllocError>
    requires can { CanAssign (names_of moment.now.scope.now) assignment.now }
    requires stored { FitsSignals (names_of moment.now.scope.now) moment.now.store.now }
    ensures { IfOk result (λ us. (us.items, words.new) ≡ updates (names_of moment.now.scope.now) moment.now.phase assignment.now (store_of moment.now.store.now) words.old) }
{
    let width = left_width(&assignment.left, moment.scope);
    let right = assignment.value.get();
    let context = context_of(right, width, moment.scope);
    let value = evaluate(right, moment, context, words)?;
    let mut pieces = Vec::new(moment.alloc);
    push_pieces(&assignment.left, moment, words, &mut pieces)?;
    updates_of(moment.alloc, pieces.as_slice(), value.bits())
}
