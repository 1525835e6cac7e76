//! The signals of a flattened design are declared in a builder, in the order of their numbers.
ghost use Rattle.std.specs.Prelude.{◌≡◌, ◌+◌, ◌<◌, ◌≤◌, ℕ, length, OnOk, IfOk, IfErr};
ghost use Rattle.std.specs.List.{Contains};
ghost use Rattle.net_builder.specs.Building.{empty, own_bits, with_declared};
ghost use Rattle.flat_runs.specs.Designs.{Design};
ghost use Rattle.flat_runs.specs.Finishing.{Begins};
ghost use Rattle.flat_laws.specs.Sound.{AreSized};
ghost use Rattle.elab_items.specs.Designs.{widths_of};
ghost use Rattle.elab_items.specs.Signals.{IsFull, bits_of, declared, max_bits};

use crate::error::BuildError;
use flat_scopes::Signal;
use mcy_base::Kind;
use net_builder::Builder;
use std::alloc::Global;

/// The most bits of the signals of a design.
const MAX_BITS: u32 = 4_194_304;

/// Declares the next signal.
fn declare(builder: &mut Builder, signal: &Signal) -> Result<(), BuildError>
    requires some { 1 ≤ signal.now.bits.width }
    requires narrow { signal.now.bits.width ≤ 128 }
    ensures declared { OnOk result (builder.new ≡ with_declared builder.old signal.now.name signal.now.span signal.now.bits.width) }
    ensures fits { OnOk result (own_bits builder.old.declared + signal.now.bits.width ≤ max_bits) }
    ensures full { IfErr result (λ e. IsFull (own_bits builder.old.declared + signal.now.bits.width) e) }
{
    let width = signal.bits.width;
    if builder.signal_bits() > MAX_BITS - u32::from(width) {
        return Err(BuildError::TooMany(Kind::NetBits));
    }
    builder.signal(signal.name.as_str(), signal.span, width)?;
    Ok(())
}

/// A builder with the signals of a flattened design, which have the numbers that they have there.
pub fn declare_signals(alloc: Global, signals: &[Signal]) -> Result<Builder, BuildError>
    requires { AreSized signals.now }
    ensures declared { IfOk result (λ b. b ≡ declared signals.now empty) }
    ensures begins { IfOk result (λ b. (design : Design) → ((k : ℕ) → design.width k ≡ widths_of signals.now k) → ((k : ℕ) → Contains design.registers k → k < length signals.now) → Begins b design) }
    ensures fits { IfOk result (λ b. bits_of signals.now ≤ max_bits) }
    ensures full { IfErr result (λ e. IsFull (bits_of signals.now) e) }
{
    let mut builder = Builder::new(alloc);
    let mut rest = signals;
    while let [signal, more @ ..] = rest {
        declare(&mut builder, signal)?;
        rest = more;
    }
    Ok(builder)
}
