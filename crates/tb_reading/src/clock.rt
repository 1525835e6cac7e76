//! The clock of a bench.
ghost use Rattle.std.specs.Prelude.{◌≡◌, ◌≤◌, ◌-◌, ◌^◌, IfSome, Some};
ghost use Rattle.vlog_meaning.specs.Scopes.{names_of};
ghost use Rattle.tb_reading.specs.Benches.{high_bits, first_generator, IsClockOf};

use mcy_base::Word;
use tb_bench::Clock;
use tb_items::{BenchItem, Generator, Inversion};
use vlog_meaning::{Decl, Scope};

/// The number whose lowest bits are 1, so many.
fn ones(width: u8) -> u128
    requires { width ≤ 128 }
    ensures { result ≡ 2 ^ width - 1 }
{
    if width < 128 {
        2u128.pow(u32::from(width)) - 1
    } else {
        u128::MAX
    }
}

/// The value of a clock of so many bits where it is high.
fn high(inversion: Inversion, width: u8) -> Option<Word>
    ensures width { IfSome result (λ w. w.width ≡ width) }
    ensures bits { IfSome result (λ w. w.bits ≡ high_bits inversion width) }
{
    if width > 128 {
        return None;
    }
    match inversion {
        Inversion::Bits => Word::new(width, ones(width)),
        Inversion::Truth => Word::new(width, 1),
    }
}

/// The clock of a generator, where its name is that of a signal.
fn clock_of(generator: &Generator<'_>, scope: &Scope) -> Option<Clock>
    ensures { IfSome result (IsClockOf (names_of scope.now) (Some generator.now)) }
{
    let Some(Decl::Signal { width, number, .. }) = scope.get(generator.clock.get().name.as_str())
    else {
        return None;
    };
    let high = high(generator.inversion, width)?;
    Some(Clock {
        signal: number,
        high,
    })
}

/// The clock of the first generator of items.
pub(crate) fn clock_in(items: &[BenchItem<'_>], scope: &Scope) -> Option<Clock>
    ensures { IfSome result (IsClockOf (names_of scope.now) (first_generator items.now)) }
{
    for item in items {
        if let BenchItem::Clocks(_, generator) = item {
            return clock_of(generator, scope);
        }
    }
    None
}
