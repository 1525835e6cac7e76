//! Which variable of a combinational process would be a latch: a bit of it is left or read unassigned (IEEE 1364-2005, 9.2).
ghost use Rattle.std.specs.Prelude.{◌≡◌, ◌∷◌, ◌||◌, not, List, map, IfOk, OnOk};
ghost use Rattle.std.specs.Option.{option_map};
ghost use Rattle.vlog_meaning.specs.Scopes.{names_of};
ghost use Rattle.vlog_effects.specs.Latches.{some_bit, is_latch, latch_of, earlier};
ghost use Rattle.vlog_effects.specs.Steps.{Steps, steps_of};
ghost use Rattle.elab_proc.specs.Refusals.{AreSized};
ghost use Rattle.signal_masks.specs.Masks.{has_bit};
ghost use Rattle.process_latches.specs.declared.marks.Write.{Write as Assigned};
ghost use Rattle.process_latches.specs.Latching.{first_latch, latch_in};
ghost use Rattle.process_latches.specs.Sound.{sound};
ghost use Rattle.process_latches.specs.Turning.{IsOwn};
ghost use Rattle.process_latches.specs.Writes.{target_of};

use crate::marks::{Marks, Write, from_end};
use crate::walk::mark;
use std::alloc::{AllocError, Global};
use vlog_meaning::Scope;
use vlog_syntax::Stmt;

/// The latch of a combinational process with this body, if it has one: of several the one whose name a left side names first, by
/// its place in the source. None is looked for where a loop, or the selector or a label of a case, is refused. The scope has signals
/// of 1 to 128 bits, and is given back as it was; where there is no memory, it is only to be dropped.
pub fn latch_of(alloc: Global, body: &Stmt, scope: &mut Scope) -> Result<Option<Write>, AllocError>
    requires { AreSized (names_of scope.old) }
    ensures latch { IfOk result (λ o. option_map target_of o ≡ latch_in (sound (steps_of body.now (names_of scope.old)))) }
    ensures kept { OnOk result (names_of scope.new ≡ names_of scope.old) }
{
    let mut marks = Marks::new(alloc);
    mark(alloc, body, scope, &mut marks)?;
    Ok(latch_in(&marks))
}

/// The latch of statements with these marks.
pub(crate) fn latch_in(marks: &Marks) -> Option<Write>
    ensures { (s : Steps) → IsOwn s marks.now → option_map target_of result ≡ latch_in s }
{
    if marks.is_stopped {
        return None;
    }
    first_latch(marks)
}

/// The latch whose name stands first.
fn first_latch(marks: &Marks) -> Option<Write>
    ensures { (s : Steps) → IsOwn s marks.now → option_map target_of result ≡ latch_of s }
{
    let writes = marks.writes.as_slice();
    let mut found = None;
    for passed in 0..writes.len() {
        let write = from_end(writes, passed);
        found = or_latch(marks, write, found);
    }
    found
}

/// The latch that stands first of this variable, if it is one, and another.
fn or_latch(marks: &Marks, write: Write, other: Option<Write>) -> Option<Write>
    ensures { (s : Steps) → IsOwn s marks.now → (ws : List Assigned) → option_map target_of other ≡ first_latch s ws → option_map target_of result ≡ first_latch s (write ∷ ws) }
{
    if is_latch(marks, write) {
        sooner(write, other)
    } else {
        other
    }
}

/// The one whose name stands first: of the same place, the first one.
fn sooner(write: Write, other: Option<Write>) -> Option<Write>
    ensures { option_map target_of result ≡ earlier (target_of write) (option_map target_of other) }
{
    match other {
        None => Some(write),
        Some(other) => {
            if other.place.stands_before(write.place) {
                Some(other)
            } else {
                Some(write)
            }
        }
    }
}

/// Whether a variable has a bit that is left or read unassigned.
fn is_latch(marks: &Marks, write: Write) -> bool
    ensures { (s : Steps) → IsOwn s marks.now → result ≡ is_latch s (target_of write) }
{
    let covered = marks.covered.bits(write.number);
    let early = marks.early.bits(write.number);
    some_loose(covered, early, write.width)
}

/// Whether one of the lowest bits is loose.
fn some_loose(covered: u128, early: u128, width: u8) -> bool
    ensures { result ≡ some_bit width (λ i. not (has_bit covered i) || has_bit early i) }
{
    let mut found = false;
    for place in 0..width {
        found = either(is_loose(covered, early, place), found);
    }
    found
}

/// Whether a bit is not among those that are assigned, or is among those that are read early.
fn is_loose(covered: u128, early: u128, place: u8) -> bool
    ensures { result ≡ (not (has_bit covered place) || has_bit early place) }
{
    !has_bit(covered, place) || has_bit(early, place)
}

/// Whether one of two is so.
fn either(first: bool, second: bool) -> bool
    ensures { result ≡ (first || second) }
{
    first || second
}

/// Whether a number has this bit, counted from the lowest.
fn has_bit(bits: u128, place: u8) -> bool
    ensures { result ≡ has_bit bits place }
{
    if place < 128 {
        (bits >> place) % 2 == 1
    } else {
        false
    }
}
