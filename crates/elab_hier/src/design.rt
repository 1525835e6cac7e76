//! Whole designs: modules become a netlist.
ghost use Rattle.std.specs.Prelude.{◌≡◌, None, Err, IfErr, IfOk};
ghost use Rattle.flat_scopes.specs.Wires.{ports_of};
ghost use Rattle.flat_items.specs.Flattened.{module_at};
ghost use Rattle.flat_items.specs.Views.{flat_of};
ghost use Rattle.flat_laws.specs.Sound.{IsSound};
ghost use Rattle.elab_items.specs.declared.answer.ElabError.TheVariants.{NoTop};
ghost use Rattle.elab_hier.specs.Accepted.{IsElaborated};
ghost use Rattle.elab_hier.specs.Elaborations.{Elaborates};
ghost use Rattle.elab_hier.specs.Parts.{IsNetlistOf, IsRefusalOf};
ghost use Rattle.elab_hier.specs.Refusals.{IsElabRefusal};

use crate::building::build;
use crate::ending::end;
use crate::numbers::lists_of;
use crate::ports::top_ports;
use elab_items::ElabError;
use elab_lefts::loops_have_left_sides;
use elab_writers::designs_can_finish;
use flat_clocks::Clocks;
use flat_items::{Flat, FlattenError, flatten, top_of};
use mcy_base::Text;
use netlist_core::Netlist;
use std::alloc::Global;
use vlog_syntax::Module;

/// The netlist of a flattened design whose top is this module.
fn elaborate_flat(
    alloc: Global,
    flat: &Flat<'_>,
    declaration: &Module,
    top: &str,
) -> Result<Netlist, ElabError>
    requires { IsSound (flat_of flat.now) }
    ensures ok { IfOk result (λ n. IsNetlistOf (flat_of flat.now) (ports_of declaration.now.ports) top.now n.raw) }
    ensures refused { IfErr result (IsRefusalOf (flat_of flat.now) (ports_of declaration.now.ports) top.now) }
{
    designs_can_finish();
    loops_have_left_sides();
    let ports = top_ports(alloc, flat, declaration)?;
    let flags = ports.flags.as_slice();
    let clocks = Clocks::of(alloc, flat, flags)?;
    let builder = build(alloc, flat, flags, &clocks)?;
    let lists = lists_of(alloc, flat, ports.inputs.as_slice(), clocks.clock())?;
    let name = Text::copy(alloc, top)?;
    end(builder, name, ports.outputs.as_slice(), lists)
}

/// The netlist of the design whose top is the first module of this name.
///
/// It has the runs of its source. Items are built in order, and the first one that is refused is answered; nets and cells that loop,
/// and too many bits, are refused last.
#[tactic(auto, using(crate::proofs::Sources::flat_sound, crate::proofs::Sources::none_elaborated))]
pub fn elaborate(alloc: Global, modules: &[Module], top: &str) -> Result<Netlist, ElabError>
    ensures ok { IfOk result (λ n. Elaborates modules.now top.now n.raw) }
    ensures accepted { IfOk result (λ n. IsElaborated modules.now top.now n.raw) }
    ensures no_top { module_at modules.now top.now ≡ None → result ≡ Err NoTop }
    ensures refused { IfErr result (IsElabRefusal modules.now top.now) }
{
    let flat = match flatten(alloc, modules, top) {
        Ok(flat) => flat,
        Err(FlattenError::NoTop) => return Err(ElabError::NoTop),
        Err(FlattenError::Memory) => return Err(ElabError::Memory),
    };
    match top_of(modules, top) {
        Some(declaration) => elaborate_flat(alloc, &flat, declaration, top),
        None => Err(ElabError::NoTop),
    }
}
