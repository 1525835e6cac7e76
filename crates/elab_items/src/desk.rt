//! What is at hand while items are built: copies of scopes, in which a loop's variable is a constant in its turns, the bits that wait
//! for variables with nonblocking assignments, and a flag for each signal, which tells whether it has a writer. Scopes are copied up to
//! the last one that has had a process, so that those of a design without processes take no room here. The flags are told again after
//! each item for the signals that it gives values, so that all items cost what they write.
ghost use Rattle.std.specs.Prelude.{List, IfOk, OnOk};
ghost use Rattle.flat_items.specs.Views.{flat_of};
ghost use Rattle.flat_instances.specs.Places.{Place as Spot};
ghost use Rattle.elab_items.specs.Desks.{AreCopies, Serves};

use crate::sides::scope_at;
use crate::writers::writers;
use flat_items::Flat;
use net_builder::Builder;
use proc_muxes::Variables;
use process_cells::nothing_waits;
use std::alloc::AllocError;
use vlog_meaning::Scope;

/// Copies of the scopes by their numbers, bits that wait, and which signals have a writer.
#[derive(Drop)]
pub struct Desk {
    pub(crate) scopes: Vec<Scope>,
    pub(crate) waiting: Variables,
    pub(crate) written: Vec<bool>,
}

/// Copies the scopes up to that of a number which are not copied yet.
pub fn copy_scopes(scopes: &mut Vec<Scope>, flat: &Flat, number: u32) -> Result<(), AllocError>
    requires { AreCopies (flat_of flat.now).places scopes.old.items }
    ensures { OnOk result (AreCopies (flat_of flat.now).places scopes.new.items) }
{
    let Ok(first) = u32::try_from(scopes.len()) else {
        return Ok(());
    };
    for next in first..u32::MAX {
        if next > number {
            return Ok(());
        }
        match scope_at(flat, next) {
            Some(scope) => scopes.push(scope.copy()?)?,
            None => return Ok(()),
        }
    }
    Ok(())
}

impl Desk {
    /// What is at hand for a design whose signals are declared. `inputs` tells by their numbers which signals are inputs of the top.
    #[tactic(auto, using(crate::proofs::Noting::desk_serves, crate::proofs::Running::none_copied))]
    pub fn new(builder: &Builder, inputs: &[bool]) -> Result<Desk, AllocError>
        ensures { IfOk result (λ desk. (places : List Spot) → Serves inputs.now places builder.now desk) }
    {
        let scopes = Vec::new(builder.alloc());
        let waiting = nothing_waits(builder)?;
        let written = writers(builder, inputs)?;
        Ok(Desk {
            scopes,
            waiting,
            written,
        })
    }
}
