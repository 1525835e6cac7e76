//! The own bits of variables are joined to the bits that these have at the end.
ghost use Rattle.std.specs.Prelude.{◌≡◌, ◌<◌, ◌∷◌, [], List, length, OnOk};
ghost use Rattle.net_builder.specs.Building.{signal};
ghost use Rattle.flat_runs.specs.Parts.{with_joints};
ghost use Rattle.process_cells.specs.declared.kept.Kept.{Kept as Variable};
ghost use Rattle.process_cells.specs.Processes.{joints_of, rejoined, all_rejoined, AllReturn};

use crate::kept::Kept;
use net_builder::{Builder, copied_bits};
use netlist_core::Bit;
use std::alloc::AllocError;

/// Joins an own bit. A constant has no net.
fn join_bit(builder: &mut Builder, own: Bit, last: Bit) -> Result<(), AllocError>
    ensures { OnOk result (builder.new ≡ with_joints builder.old (joints_of (own ∷ []) (last ∷ []))) }
{
    match own {
        Bit::Net(net) => builder.join(net, last),
        Bit::Fixed(_) => Ok(()),
    }
}

/// Joins own bits, from the lowest on.
fn join_bits(builder: &mut Builder, own: &[Bit], last: &[Bit]) -> Result<(), AllocError>
    ensures { OnOk result (builder.new ≡ with_joints builder.old (joints_of own.now last.now)) }
{
    let mut owns = own;
    let mut lasts = last;
    while let [bit, more @ ..] = owns {
        let [to, others @ ..] = lasts else {
            return Ok(());
        };
        join_bit(builder, *bit, *to)?;
        owns = more;
        lasts = others;
    }
    Ok(())
}

/// Gives a variable its own bits, which are joined to those that it had last.
fn rejoin(builder: &mut Builder, own: &Kept, last: &[Bit]) -> Result<(), AllocError>
    requires known { own.now.number < length builder.old.signals }
    requires wide { length own.now.bits ≡ length (signal builder.old own.now.number) }
    ensures is { OnOk result (builder.new ≡ rejoined own.now last.now builder.old) }
    ensures fit { OnOk result ((owns : List Variable) → AllReturn builder.old owns → AllReturn builder.new owns) }
{
    let bits = copied_bits(builder.alloc(), own.bits.as_slice())?;
    builder.set(own.number, bits);
    join_bits(builder, own.bits.as_slice(), last)?;
    Ok(())
}

/// Gives variables their own bits, which are joined to those that they had last.
pub(crate) fn rejoin_all(
    builder: &mut Builder,
    owns: &[Kept],
    lasts: &[Kept],
) -> Result<(), AllocError>
    requires { AllReturn builder.old owns.now }
    ensures { OnOk result (builder.new ≡ all_rejoined owns.now lasts.now builder.old) }
{
    let mut rest = owns;
    let mut ends = lasts;
    while let [own, more @ ..] = rest {
        let [last, others @ ..] = ends else {
            return Ok(());
        };
        rejoin(builder, own, last.bits.as_slice())?;
        rest = more;
        ends = others;
    }
    Ok(())
}
