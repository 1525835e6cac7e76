//! Left sides of a design, as whoever builds its items keeps them, and the first of them that writes a net on a loop.
ghost use Rattle.std.specs.Prelude.{◌≡◌, ◌↔◌, ℕ, MatchOption, IfOk, IsTrue};
ghost use Rattle.netlist_core.specs.declared.bit.Bit.TheVariants.{Net};
ghost use Rattle.flat_runs.specs.Adding.{IsBit};
ghost use Rattle.net_builder.specs.Written.{IsJoined};
ghost use Rattle.elab_finish.specs.Loops.{next_of, IsLooped, IsLoopFree, IsLeftLooped, AreCovered};
ghost use Rattle.elab_finish.specs.Refusals.{IsLeftAt};
ghost use Rattle.elab_finish.specs.Searching.{HasNet, IsSettled};

use crate::nets::net_limit;
use crate::search::Search;
use mcy_base::Span;
use net_builder::Builder;
use netlist_core::Bit;
use std::alloc::AllocError;

/// What one part of a left side writes: `count` bits of a signal from bit `first` on, and the place of its name.
#[derive(Clone, Copy, Debug, PartialEq, Eq)]
pub struct Left {
    pub span: Span,
    pub signal: u32,
    pub first: u8,
    pub count: u8,
}

/// Whether a bit is a net that leads back to itself.
fn is_bit_looped(search: &mut Search, builder: &Builder, bit: Bit) -> bool
    requires { IsSettled (next_of builder.now) search.old.marks.items }
    ensures settled { IsSettled (next_of builder.now) search.new.marks.items }
    ensures looped { IsTrue result ↔ ((n : ℕ) × (bit ≡ Net n) × IsLooped builder.now n) }
{
    match bit {
        Bit::Net(net) => search.is_looped(builder, net),
        Bit::Fixed(_) => false,
    }
}

/// Whether one of the bits from `first` on, before `end`, is a net that leads back to itself.
fn has_looped(
    search: &mut Search,
    builder: &Builder,
    bits: &[Bit],
    first: usize,
    end: usize,
) -> bool
    requires { IsSettled (next_of builder.now) search.old.marks.items }
    ensures settled { IsSettled (next_of builder.now) search.new.marks.items }
    ensures looped { IsTrue result ↔ ((n : ℕ) × HasNet bits.now first end n × IsLooped builder.now n) }
{
    let last = end.min(bits.len());
    let mut k = first;
    while k < last {
        if is_bit_looped(search, builder, bits[k]) {
            return true;
        }
        k += 1;
    }
    false
}

/// Whether a left side writes a net that leads back to itself.
fn is_left_looped(search: &mut Search, builder: &Builder, left: Left) -> bool
    requires { IsSettled (next_of builder.now) search.old.marks.items }
    ensures settled { IsSettled (next_of builder.now) search.new.marks.items }
    ensures looped { IsTrue result ↔ IsLeftLooped builder.now left }
{
    if left.signal >= builder.signal_count() {
        return false;
    }
    let first = usize::from(left.first);
    let end = first + usize::from(left.count);
    has_looped(search, builder, builder.bits(left.signal), first, end)
}

/// The place of the first left side that writes a net that leads back to itself.
pub(crate) fn first_looped(builder: &Builder, lefts: &[Left]) -> Result<Option<Span>, AllocError>
    requires joined { (n : ℕ) → IsJoined builder.now n → (k : ℕ) × (i : ℕ) × IsBit builder.now k i n }
    requires covered { AreCovered builder.now lefts.now }
    ensures { IfOk result (λ found. MatchOption found (IsLoopFree builder.now) (IsLeftAt builder.now lefts.now)) }
{
    let mut search = Search::new(builder.alloc(), builder, net_limit(builder))?;
    for left in lefts {
        if is_left_looped(&mut search, builder, *left) {
            return Ok(Some(left.span));
        }
    }
    Ok(None)
}
