//! The numbers that `$random` and `$time` are.
ghost use Rattle.std.specs.Prelude.{◌≡◌, ◌<◌, ◌≤◌, ◌^◌};
ghost use Rattle.rand_pcg.specs.Pcg.{pcg32};
ghost use Rattle.vlog_meaning.specs.Scopes.{Names};
ghost use Rattle.vlog_meaning.specs.Senses.{sense};
ghost use Rattle.tb_values.specs.Draws.{number_sense, random_shape, time_shape};

use mcy_base::{Span, Word};
use rand_core::utils::NextWord;
use rand_pcg::Lcg64Xsh32;
use vlog_meaning::Shape;
use vlog_syntax::{Expr, Number};

/// A number of this width and sign.
fn number(span: Span, shape: Shape, bits: u128) -> Expr
    requires some { 1 ≤ shape.width }
    requires narrow { shape.width ≤ 128 }
    requires fits { bits < 2 ^ shape.width }
    ensures { (names : Names) → sense names result ≡ number_sense shape bits }
{
    let value = Word::new(shape.width, bits).unwrap();
    Expr::Number(Number {
        value,
        is_signed: shape.is_signed,
        x_bits: 0,
        z_bits: 0,
        span,
    })
}

/// The next word of the generator, as a signed number.
pub(crate) fn random(span: Span, words: &mut Lcg64Xsh32) -> Expr
    ensures number { (names : Names) → sense names result ≡ number_sense random_shape (pcg32 words.old).0 }
    ensures words { words.new ≡ (pcg32 words.old).1 }
{
    let word = words.next_word();
    let shape = Shape {
        width: 32,
        is_signed: true,
    };
    number(span, shape, u128::from(word))
}

/// The number of the phase, as an unsigned one.
pub(crate) fn time(span: Span, phase: u64) -> Expr
    ensures { (names : Names) → sense names result ≡ number_sense time_shape phase }
{
    let shape = Shape {
        width: 64,
        is_signed: false,
    };
    number(span, shape, u128::from(phase))
}
