//! The end of elaboration: what was built becomes a netlist.
ghost use Rattle.std.specs.Prelude.{IfErr, IfOk};
ghost use Rattle.flat_runs.specs.Designs.{Design};
ghost use Rattle.flat_runs.specs.Finishing.{Finishes};
ghost use Rattle.elab_finish.specs.Endings.{CanFinish, IsDesignOf, IsEnding};
ghost use Rattle.elab_finish.specs.Names.{AreNamedApart};
ghost use Rattle.elab_finish.specs.Refusals.{IsWithin};
ghost use Rattle.elab_hier.specs.Accepted.{CanRun};
ghost use Rattle.elab_hier.specs.Parts.{IsRefusedAs};

use crate::answers::end_answer;
use crate::numbers::Lists;
use elab_finish::finish_design;
use elab_items::ElabError;
use mcy_base::Text;
use net_builder::Builder;
use netlist_core::Netlist;

/// The netlist of what was built, for a top of this name that has these outputs.
pub(crate) fn end(
    builder: Builder,
    name: Text,
    outputs: &[u32],
    lists: Lists,
) -> Result<Netlist, ElabError>
    requires { CanFinish builder lists.inputs.items outputs.now lists.declared.items lists.lefts.items }
    ensures ending { IfOk result (λ n. IsEnding builder name lists.clock lists.inputs.items outputs.now lists.declared.items n.raw) }
    ensures finishes { IfOk result (λ n. (design : Design) → IsDesignOf builder lists.inputs.items outputs.now lists.declared.items design → Finishes builder design n.raw) }
    ensures within { IfOk result (λ n. IsWithin n.raw) }
    ensures apart { IfOk result (λ n. AreNamedApart n.raw.registers) }
    ensures runnable { IfOk result (λ n. CanRun n.raw) }
    ensures refused { IfErr result (IsRefusedAs builder name lists.clock lists.inputs.items outputs.now lists.declared.items lists.lefts.items) }
{
    let Lists {
        inputs,
        declared,
        clock,
        lefts,
    } = lists;
    let (inputs, declared) = (inputs.as_slice(), declared.as_slice());
    match finish_design(
        builder,
        name,
        clock,
        inputs,
        outputs,
        declared,
        lefts.as_slice(),
    ) {
        Ok(netlist) => Ok(netlist),
        Err(error) => Err(end_answer(error)),
    }
}
