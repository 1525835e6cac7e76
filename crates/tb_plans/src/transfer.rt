//! Assignments with a plan.
ghost use Rattle.std.specs.Prelude.{◌≡◌, ◌<◌, ◌≤◌, ◌^◌, map};
ghost use Rattle.rand_pcg.specs.Pcg.{pcg32};
ghost use Rattle.vlog_meaning.specs.Scopes.{store_of};
ghost use Rattle.vlog_meaning.specs.Senses.{taken};
ghost use Rattle.tb_values.specs.Draws.{random_shape};
ghost use Rattle.tb_assigns.specs.Pieces.{listed};
ghost use Rattle.tb_plans.specs.Transfers.{transfer_updates, draw_updates, TransferFits, DrawFits};

use crate::target::Target;
use mcy_base::Word;
use rand_core::utils::NextWord;
use rand_pcg::Lcg64Xsh32;
use tb_formulas::Formula;
use tb_machine::Update;
use vlog_meaning::{Shape, extend};

/// An assignment that draws nothing: a value, and where it goes.
pub struct Transfer {
    pub value: Formula,
    pub target: Target,
}

impl Drop for Transfer {
    fn drop(self) {
        let Transfer {
            value: _value,
            target: _target,
        } = self;
    }
}

/// An assignment of a word of `$random`, at a width and sign.
#[derive(Drop)]
pub struct Draw {
    pub context: Shape,
    pub target: Target,
}

/// An assignment of a process.
#[derive(Drop)]
pub enum Writing {
    Transfer(Transfer),
    Draw(Draw),
}

impl Transfer {
    /// The update, if a bit of the target lies in its signal.
    #[inline]
    pub fn update(&self, store: &[Word]) -> Option<Update>
        requires { TransferFits (map (λ w. w.width) store.now) self.now }
        ensures { listed result ≡ transfer_updates self.now (store_of store.now) }
    {
        let value = self.value.value(store);
        self.target.update(store, value)
    }
}

/// The next word of the generator, at this width and sign.
fn drawn(context: Shape, words: &mut Lcg64Xsh32) -> u128
    requires wide { 32 ≤ context.width }
    requires narrow { context.width ≤ 128 }
    ensures value { result ≡ taken random_shape context (pcg32 words.old).0 }
    ensures fits { result < 2 ^ context.width }
    ensures words { words.new ≡ (pcg32 words.old).1 }
{
    let word = words.next_word();
    let own = Shape {
        width: 32,
        is_signed: context.is_signed,
    };
    extend(own, u128::from(word), context.width)
}

impl Draw {
    /// The update with the next word, if a bit of the target lies in its signal.
    pub fn update(&self, store: &[Word], words: &mut Lcg64Xsh32) -> Option<Update>
        requires { DrawFits (map (λ w. w.width) store.now) self.now }
        ensures { (listed result, words.new) ≡ draw_updates self.now (store_of store.now) words.old }
    {
        let value = drawn(self.context, words);
        self.target.update(store, value)
    }
}
