//! The end of elaboration.
ghost use Rattle.std.specs.Prelude.{IfOk, IfErr};
ghost use Rattle.flat_runs.specs.Designs.{Design as Flattened};
ghost use Rattle.flat_runs.specs.Finishing.{Finishes};
ghost use Rattle.elab_finish.specs.Endings.{CanFinish, IsDesignOf, IsEnding};
ghost use Rattle.elab_finish.specs.Names.{AreNamedApart};
ghost use Rattle.elab_finish.specs.Refusals.{IsRefused, IsWithin};

use crate::checking::{checked, spans_of, test_netlist};
use crate::ending::ending;
use crate::error::DesignError;
use crate::left::{Left, first_looped};
use mcy_base::Text;
use net_builder::Builder;
use netlist_core::Netlist;

/// The netlist of a builder in which all items of a design are built, which can be run.
///
/// `inputs` and `outputs` are the numbers of the ports' signals, in order and without the clock. `declared` has all signals in
/// the order in which they are declared; the registers stand in this order. `lefts` has the left sides in the order of the items,
/// and within an item from the left on.
///
/// Nets that lead back to themselves without passing through a cell are refused first, at the first left side that writes one;
/// then too many net bits, then too many register bits, then two registers of one name, at the second of them, and last a loop
/// through cells, at the least numbered cell on one.
pub fn finish_design(
    builder: Builder,
    top: Text,
    clock: Option<Text>,
    inputs: &[u32],
    outputs: &[u32],
    declared: &[u32],
    lefts: &[Left],
) -> Result<Netlist, DesignError>
    requires { CanFinish builder inputs.now outputs.now declared.now lefts.now }
    ensures ending { IfOk result (λ n. IsEnding builder top clock inputs.now outputs.now declared.now n.raw) }
    ensures finishes { IfOk result (λ n. (design : Flattened) → IsDesignOf builder inputs.now outputs.now declared.now design → Finishes builder design n.raw) }
    ensures within { IfOk result (λ n. IsWithin n.raw) }
    ensures apart { IfOk result (λ n. AreNamedApart n.raw.registers) }
    ensures refused { IfErr result (IsRefused builder top clock inputs.now outputs.now declared.now lefts.now) }
{
    let alloc = builder.alloc();
    if let Some(span) = first_looped(&builder, lefts)? {
        return Err(DesignError::Loop(span));
    }
    let spans = spans_of(alloc, builder.cells())?;
    let netlist = ending(builder, top, clock, inputs, outputs, declared)?;
    match test_netlist(alloc, &netlist) {
        Ok(()) => checked(alloc, netlist, &spans),
        Err(error) => Err(error),
    }
}
