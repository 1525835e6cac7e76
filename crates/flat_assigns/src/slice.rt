//! A part of a left side in which nothing is wrong: consecutive bits of a signal, from a declared number on.
//!
//! The signal has `width` bits, of which the lowest has the declared number `low`. The part has `size` bits, from the
//! declared number `base` on; some of them may lie outside the declared range.
ghost use Rattle.std.specs.Prelude.{◌≡◌, pos};
ghost use Rattle.vlog_meaning.specs.Integers.{bound_integer};
ghost use Rattle.vlog_meaning.specs.Scopes.{names_of};
ghost use Rattle.vlog_effects.specs.LeftSides.{bit_at, vector_of};
ghost use Rattle.net_builder.specs.Building.{Building, HasSignals};
ghost use Rattle.flat_assigns.specs.Parts.{AllWithin, IsPartOf, bit_in, vector_in};

use mcy_base::Span;
use vlog_meaning::{Bound, Decl, Scope};
use vlog_syntax::Identifier;

/// A part.
#[derive(Clone, Copy, Debug, PartialEq, Eq)]
pub(crate) struct Slice {
    pub(crate) span: Span,
    pub(crate) signal: u32,
    pub(crate) width: u8,
    pub(crate) low: u32,
    pub(crate) base: Bound,
    pub(crate) size: u8,
}

impl Slice {
    /// So many bits of a name that is a signal, from a declared number on.
    pub(crate) fn of(scope: &Scope, name: &Identifier, base: Bound, size: u8) -> Option<Slice>
        ensures part { IsPartOf name.now.span (vector_of (names_of scope.now name.now.name)) (λ v. bound_integer base) (λ v. size) result }
        ensures inside { (b : Building) → HasSignals (names_of scope.now) b → AllWithin b result }
    {
        match scope.get(name.name.as_str()) {
            Some(
                Decl::Signal {
                    width,
                    low,
                    number,
                    ..
                },
            ) => Some(Slice {
                span: name.span,
                signal: number,
                width,
                low,
                base,
                size,
            }),
            Some(Decl::Constant { .. }) | None => None,
        }
    }

    /// All bits of a name that is a signal.
    pub(crate) fn whole(scope: &Scope, name: &Identifier) -> Option<Slice>
        ensures part { IsPartOf name.now.span (vector_of (names_of scope.now name.now.name)) (λ v. pos v.low) (λ v. v.width) result }
        ensures inside { (b : Building) → HasSignals (names_of scope.now) b → AllWithin b result }
    {
        match scope.get(name.name.as_str()) {
            Some(
                Decl::Signal {
                    width,
                    low,
                    number,
                    ..
                },
            ) => Some(Slice {
                span: name.span,
                signal: number,
                width,
                low,
                base: Bound {
                    is_negative: false,
                    magnitude: u128::from(low),
                },
                size: width,
            }),
            Some(Decl::Constant { .. }) | None => None,
        }
    }

    /// The bit of the signal with a declared number, or none outside its range.
    #[tactic(auto, using(crate::proofs::Bits::bit_there, crate::proofs::Bits::bit_below, crate::proofs::Bits::bit_above))]
    fn numbered(self, number: u128) -> Option<u8>
        ensures { result ≡ bit_at (vector_in self) (pos number) }
    {
        let low = u128::from(self.low);
        if number < low {
            None
        } else if number - low < u128::from(self.width) {
            Some((number - low) as u8)
        } else {
            None
        }
    }

    /// The bit of the signal that is bit k of the part, or none outside the declared range.
    #[tactic(auto, using(crate::proofs::Bits::bit_before, crate::proofs::Bits::bit_since, crate::proofs::Bits::bit_from, crate::proofs::Bits::bit_far))]
    pub(crate) fn bit(self, k: u8) -> Option<u8>
        ensures { result ≡ bit_in self k }
    {
        let k = u128::from(k);
        if self.base.is_negative {
            if k < self.base.magnitude {
                None
            } else {
                self.numbered(k - self.base.magnitude)
            }
        } else {
            match self.base.magnitude.checked_add(k) {
                Some(number) => self.numbered(number),
                None => None,
            }
        }
    }
}
