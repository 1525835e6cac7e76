//! The bits that an assignment writes.
ghost use Rattle.std.specs.Prelude.{◌≡◌, ℕ, List, map};
ghost use Rattle.vlog_meaning.specs.Integers.{integer};
ghost use Rattle.vlog_meaning.specs.Operators.{IsSized};
ghost use Rattle.vlog_meaning.specs.Scopes.{Store, store_of};
ghost use Rattle.tb_assigns.specs.Pieces.{vector_is, listed, clip_update};
ghost use Rattle.tb_assigns.specs.Updates.{window_update};
ghost use Rattle.tb_formulas.specs.Formulas.{formula_value, FitsIn};
ghost use Rattle.tb_plans.specs.Transfers.{target_updates, TargetFits, Takes};

use mcy_base::Word;
use tb_assigns::{Clip, Piece, Vector, update_of};
use tb_formulas::Formula;
use tb_machine::Update;
use vlog_meaning::{Bound, Shape};

/// Where an assignment writes: bits of one signal.
pub enum Target {
    /// Always the same ones, and a value has no more: it is written as it is.
    Filled { signal: u32, low: u8, width: u8 },
    /// Always the same ones.
    Fixed(Clip),
    /// So many, from an index of this shape on.
    Indexed(Vector, u8, Shape, Formula),
}

impl Drop for Target {
    fn drop(self) {
        match self {
            Target::Filled {
                signal: _,
                low: _,
                width: _,
            } => {}
            Target::Fixed(_) => {}
            Target::Indexed(_, _, _, _index) => {}
        }
    }
}

/// The update of so many bits of a signal, from an index of this shape on, with a value.
#[inline(never)]
fn update_from(
    vector: Vector,
    size: u8,
    shape: Shape,
    index: &Formula,
    store: &[Word],
    value: u128,
) -> Option<Update>
    requires sized { IsSized shape }
    requires fits { FitsIn (map (λ w. w.width) store.now) index.now shape.width }
    ensures { listed result ≡ window_update (record { vector = vector_is vector; base = integer shape (formula_value index.now (store_of store.now)); size = size }) value }
{
    let base = Bound::of(shape, index.value(store));
    update_of(Piece { vector, base, size }, value)
}

impl Target {
    /// The bits of a clip, for values of so many bits.
    pub(crate) fn of_clip(clip: Clip, bits: u8) -> Target
        ensures updates { (store : Store) (v : ℕ) → target_updates result store v ≡ clip_update clip v }
        ensures fits { (widths : List ℕ) → TargetFits widths bits result }
    {
        if clip.skipped == 0 && clip.width >= 1 && bits <= clip.width {
            return Target::Filled {
                signal: clip.signal,
                low: clip.low,
                width: clip.width,
            };
        }
        Target::Fixed(clip)
    }

    /// The update with a value, if there is one.
    #[inline]
    pub(crate) fn update(&self, store: &[Word], value: u128) -> Option<Update>
        requires { Takes (map (λ w. w.width) store.now) self.now value }
        ensures { listed result ≡ target_updates self.now (store_of store.now) value }
    {
        match self {
            Target::Filled { signal, low, width } => Some(Update {
                signal: *signal,
                low: *low,
                width: *width,
                value,
            }),
            Target::Fixed(clip) => clip.update(value),
            Target::Indexed(vector, size, shape, index) => {
                update_from(*vector, *size, *shape, index, store, value)
            }
        }
    }
}
