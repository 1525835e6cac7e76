//! What is read of a testbench's module before it is judged.
ghost use Rattle.std.specs.Prelude.{◌≡◌, ◌++◌, IfOk, length, option_copied};
ghost use Rattle.netlist_core.specs.Checked.{AllWide};
ghost use Rattle.netlist_core.specs.Runs.{bits_at};
ghost use Rattle.vlog_meaning.specs.Scopes.{names_of};
ghost use Rattle.tb_reading.specs.Readings.{instance_names, input_numbers, output_numbers, instance_widths, instance_values, IsRead};

use flat_scopes::{Lent, Signal};
use mcy_base::Text;
use netlist_core::{Netlist, RawNetlist};
use std::alloc::{AllocError, Global};
use tb_contents::{design_of, hide_ports, start_all};
use tb_items::{BenchItem, Design, clock_of, held_instance, items_of};
use tb_signals::{Signals, open_alone, opened_modules_stand};
use vlog_syntax::{Identifier, Module};

/// A testbench's signals, its items and its clock, and the hidden signals at the ports of the design.
#[derive(Drop)]
pub(crate) struct Reading<'a> {
    /// All signals, hidden ones among them.
    pub(crate) signals: Signals,
    /// Those that the module declares.
    pub(crate) declared: Vec<Signal>,
    pub(crate) clock: Option<Text>,
    pub(crate) items: Vec<BenchItem<'a>>,
    pub(crate) inputs: Vec<u32>,
    pub(crate) outputs: Vec<u32>,
}

/// The numbers of the hidden signals.
#[derive(Drop)]
struct Hidden {
    inputs: Vec<u32>,
    outputs: Vec<u32>,
}

/// The hidden signals at the ports of the instance, if there is one.
fn hide(
    alloc: Global,
    design: &Design<'_>,
    instance: Option<Lent<'_, Identifier>>,
    netlist: &RawNetlist,
    signals: &mut Signals,
) -> Result<Hidden, AllocError>
    requires inputs { AllWide (bits_at netlist.now.inputs) }
    requires outputs { AllWide (bits_at netlist.now.outputs) }
    ensures names { IfOk result (λ _. names_of signals.new.scope ≡ instance_names design.now instance.entry netlist.now (names_of signals.old.scope) (length signals.old.widths)) }
    ensures inputs { IfOk result (λ h. h.inputs.items ≡ input_numbers instance.entry netlist.now (length signals.old.widths)) }
    ensures outputs { IfOk result (λ h. h.outputs.items ≡ output_numbers instance.entry netlist.now (length signals.old.widths)) }
    ensures widths { IfOk result (λ _. signals.new.widths ≡ signals.old.widths ++ instance_widths instance.entry netlist.now) }
    ensures values { IfOk result (λ _. signals.new.values ≡ signals.old.values ++ instance_values instance.entry netlist.now) }
{
    let Some(instance) = instance else {
        return Ok(Hidden {
            inputs: Vec::new(alloc),
            outputs: Vec::new(alloc),
        });
    };
    let name = instance.get().name.as_str();
    let inputs = hide_ports(alloc, design, name, netlist.inputs.as_slice(), signals)?;
    let outputs = hide_ports(alloc, design, name, netlist.outputs.as_slice(), signals)?;
    Ok(Hidden { inputs, outputs })
}

/// Reads the module of a testbench for the design of a netlist with this top.
pub(crate) fn read<'a>(
    alloc: Global,
    module: &'a Module,
    top: &'a Module,
    netlist: &Netlist,
) -> Result<Reading<'a>, AllocError>
    ensures { IfOk result (IsRead module.now top.now netlist.now.raw) }
{
    opened_modules_stand();
    let design = design_of(alloc, top, netlist)?;
    let parts = open_alone(alloc, module)?.into_parts();
    let steps = parts.steps;
    let mut signals = Signals::of(alloc, parts.scope, parts.signals.as_slice())?;
    let instance = held_instance(&design, steps.as_slice());
    let hidden = hide(alloc, &design, instance, netlist.raw(), &mut signals)?;
    let clock = clock_of(alloc, signals.scope(), steps.as_slice())?;
    let items = items_of(alloc, signals.scope(), &design, &clock, steps.as_slice())?;
    start_all(&mut signals, items.as_slice());
    Ok(Reading {
        signals,
        declared: parts.signals,
        clock,
        items,
        inputs: hidden.inputs,
        outputs: hidden.outputs,
    })
}
