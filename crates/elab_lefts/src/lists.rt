//! Left sides that are listed: bits, ports and variables.
ghost use Rattle.std.specs.Prelude.{◌≡◌, ◌++◌, map, OnOk};
ghost use Rattle.flat_assigns.specs.Bits.{targets_of};
ghost use Rattle.elab_lefts.specs.Lefts.{bit_left, port_lefts, whole_left, write_left};

use elab_finish::Left;
use flat_assigns::WrittenBit;
use flat_scopes::Signal;
use mcy_base::Span;
use process_latches::Write;
use std::alloc::AllocError;

/// Lists bits, each as a left side of its own.
pub(crate) fn list_bits(lefts: &mut Vec<Left>, bits: &[WrittenBit]) -> Result<(), AllocError>
    ensures { OnOk result (lefts.new.items ≡ lefts.old.items ++ map bit_left (targets_of bits.now)) }
{
    for bit in bits {
        lefts.push(Left {
            span: bit.span,
            signal: bit.signal,
            first: bit.bit,
            count: 1,
        })?;
    }
    Ok(())
}

/// All bits of a signal, which is named at this place.
fn whole(signals: &[Signal], span: Span, number: u32) -> Left
    ensures { result ≡ whole_left signals.now span number }
{
    let count = match signals.get(number as usize) {
        Some(signal) => signal.bits.width,
        None => 0,
    };
    Left {
        span,
        signal: number,
        first: 0,
        count,
    }
}

/// Lists a port, at the place where it is declared.
pub(crate) fn list_port(
    lefts: &mut Vec<Left>,
    signals: &[Signal],
    port: u32,
) -> Result<(), AllocError>
    ensures { OnOk result (lefts.new.items ≡ lefts.old.items ++ port_lefts signals.now port) }
{
    match signals.get(port as usize) {
        Some(signal) => {
            lefts.push(whole(signals, signal.span, port))?;
            Ok(())
        }
        None => Ok(()),
    }
}

/// Lists variables as they are assigned.
pub(crate) fn list_writes(
    lefts: &mut Vec<Left>,
    signals: &[Signal],
    writes: &[Write],
) -> Result<(), AllocError>
    ensures { OnOk result (lefts.new.items ≡ lefts.old.items ++ map (write_left signals.now) writes.now) }
{
    for write in writes {
        lefts.push(whole(signals, write.place, write.number))?;
    }
    Ok(())
}
