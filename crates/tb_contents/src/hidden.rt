//! The hidden signals at the ports of the design.
ghost use Rattle.std.specs.Prelude.{◌≡◌, ◌++◌, ◌∷◌, [], ◌≤◌, IfOk, length, map};
ghost use Rattle.std.specs.List.{All};
ghost use Rattle.vlog_meaning.specs.Scopes.{names_of, with_name};
ghost use Rattle.tb_items.specs.Designs.{hidden_name, port_sign};
ghost use Rattle.tb_signals.specs.Tables.{hidden_decl};
ghost use Rattle.tb_contents.specs.Hidden.{hidden_names, numbers_from, port_widths};

use netlist_core::Port;
use std::alloc::{AllocError, Global};
use tb_items::{Design, hidden_name};
use tb_signals::Signals;

/// How many bits a port has.
fn width_of(port: &Port) -> u8
    requires { length port.now.bits ≤ 128 }
    ensures { result ≡ length port.now.bits }
{
    let width = port.bits.as_slice().len();
    width as u8
}

/// A hidden signal for a port of the instance: its number.
fn hide_port(
    alloc: Global,
    design: &Design<'_>,
    instance: &str,
    port: &Port,
    signals: &mut Signals,
) -> Result<u32, AllocError>
    requires some { 1 ≤ length port.now.bits }
    requires narrow { length port.now.bits ≤ 128 }
    ensures names { IfOk result (λ _. names_of signals.new.scope ≡ with_name (names_of signals.old.scope) (hidden_name instance.now port.now.name) (hidden_decl (length port.now.bits) (port_sign design.now port.now.name) (length signals.old.widths))) }
    ensures number { IfOk result (λ n. n ≡ length signals.old.widths) }
    ensures widths { IfOk result (λ _. signals.new.widths ≡ signals.old.widths ++ length port.now.bits ∷ []) }
    ensures values { IfOk result (λ _. signals.new.values ≡ signals.old.values ++ 0 ∷ []) }
{
    let name = hidden_name(alloc, instance, port.name.as_str())?;
    let is_signed = design.is_signed(port.name.as_str());
    signals.hide(name.as_str(), width_of(port), is_signed)
}

/// A hidden signal for each of these ports of the instance: their numbers.
pub fn hide_ports(
    alloc: Global,
    design: &Design<'_>,
    instance: &str,
    ports: &[Port],
    signals: &mut Signals,
) -> Result<Vec<u32>, AllocError>
    requires { All (λ p. (1 ≤ length p.bits) × (length p.bits ≤ 128)) ports.now }
    ensures names { IfOk result (λ _. names_of signals.new.scope ≡ hidden_names design.now instance.now (names_of signals.old.scope) (length signals.old.widths) ports.now) }
    ensures numbers { IfOk result (λ ns. ns.items ≡ numbers_from (length signals.old.widths) ports.now) }
    ensures widths { IfOk result (λ _. signals.new.widths ≡ signals.old.widths ++ port_widths ports.now) }
    ensures values { IfOk result (λ _. signals.new.values ≡ signals.old.values ++ map (λ p. 0) ports.now) }
{
    let mut numbers = Vec::new(alloc);
    for port in ports {
        numbers.push(hide_port(alloc, design, instance, port, signals)?)?;
    }
    Ok(numbers)
}
