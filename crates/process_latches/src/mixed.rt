//! A variable's second kind of assignment in a process.
ghost use Rattle.std.specs.Prelude.{◌≡◌, ◌∷◌, true, false, List, Some, IfOk, OnOk};
ghost use Rattle.elab_proc.specs.Order.{IsFirst};
ghost use Rattle.process_latches.specs.declared.marks.Write.{Write as Assigned};
ghost use Rattle.process_latches.specs.Mixed.{same_kind, lesser, mixed_after, mixed_at, mixed_refusals, HasFirsts};

use crate::marks::{Write, from_end};
use elab_proc::{Refusal, earlier};
use mcy_base::Span;
use std::alloc::{AllocError, Global};
use std::collections::BTreeMap;
use vlog_syntax::Feature;

/// Where each variable is first assigned in each kind, by its number.
#[derive(Drop)]
struct Firsts {
    blocking: BTreeMap<u32, Span>,
    nonblocking: BTreeMap<u32, Span>,
}

/// The first assignment of a variable's second kind among those of a process, at its first token.
pub fn mixed_refusal(alloc: Global, writes: &[Write]) -> Result<Option<Refusal>, AllocError>
    ensures { IfOk result (λ o. IsFirst (mixed_refusals writes.now) o) }
{
    let firsts = Firsts {
        blocking: firsts_of(alloc, writes, true)?,
        nonblocking: firsts_of(alloc, writes, false)?,
    };
    let mut found = None;
    for write in writes {
        found = earlier(found, mixed_at(&firsts, *write));
    }
    Ok(found)
}

/// Where each variable is first assigned in a kind.
fn firsts_of(
    alloc: Global,
    writes: &[Write],
    is_blocking: bool,
) -> Result<BTreeMap<u32, Span>, AllocError>
    ensures { IfOk result (λ m. HasFirsts writes.now is_blocking m) }
{
    let mut firsts = BTreeMap::new(alloc);
    for passed in 0..writes.len() {
        let write = from_end(writes, passed);
        note(&mut firsts, write, is_blocking)?;
    }
    Ok(firsts)
}

/// One more assignment before all others.
fn note(firsts: &mut BTreeMap<u32, Span>, write: Write, is_blocking: bool) -> Result<(), AllocError>
    ensures { OnOk result ((ws : List Assigned) → HasFirsts ws is_blocking firsts.old → HasFirsts (write ∷ ws) is_blocking firsts.new) }
{
    if !same_kind(write.is_blocking, is_blocking) {
        return Ok(());
    }
    let place = lesser(write.first, firsts.get(&write.number).copied());
    match firsts.insert(write.number, place) {
        Ok(_) => Ok(()),
        Err(_) => Err(AllocError),
    }
}

/// Whether two kinds are the same.
fn same_kind(first: bool, second: bool) -> bool
    ensures { result ≡ same_kind first second }
{
    if first { second } else { !second }
}

/// The lesser of two places.
fn lesser(place: Span, other: Option<Span>) -> Span
    ensures { Some result ≡ lesser place other }
{
    match other {
        None => place,
        Some(other) => {
            if other.stands_before(place) {
                other
            } else {
                place
            }
        }
    }
}

/// What is refused in one of several assignments.
fn mixed_at(firsts: &Firsts, write: Write) -> Option<Refusal>
    ensures { (ws : List Assigned) → HasFirsts ws true firsts.now.blocking → HasFirsts ws false firsts.now.nonblocking → IsFirst (mixed_at ws write) result }
{
    let other = if write.is_blocking {
        firsts.nonblocking.get(&write.number).copied()
    } else {
        firsts.blocking.get(&write.number).copied()
    };
    mixed_after(other, write.first)
}

/// An assignment before which the first one of the other kind stands, or at whose place.
fn mixed_after(other: Option<Span>, at: Span) -> Option<Refusal>
    ensures { IsFirst (mixed_after other at) result }
{
    match other {
        None => None,
        Some(other) => {
            if at.stands_before(other) {
                None
            } else {
                Some(Refusal::Unsupported(at, Feature::MixedAssign))
            }
        }
    }
}
