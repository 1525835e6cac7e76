//! The design of a testbench: its module's name, the ports in its head, in order, and its module as it was opened, which says what
//! each port is.
ghost use Rattle.std.specs.Prelude.{◌≡◌, IfOk};
ghost use Rattle.flat_scopes.specs.Views.{opened_of};
ghost use Rattle.tb_items.specs.Designs.{is_clock, named_port, direction_role, port_role, role_of, signal_sign, sign_at, port_sign, hidden_name};

use flat_scopes::{NameList, Opening, Port, Signal};
use mcy_base::Text;
use std::alloc::{AllocError, Global};
use vlog_syntax::Direction;

/// What a port of the design is.
#[derive(Clone, Copy, Debug, PartialEq, Eq)]
pub enum Role {
    Clock,
    Input,
    Output,
}

/// The design of a testbench.
#[derive(Drop)]
pub struct Design<'a> {
    /// The name of its module.
    pub name: Text,
    /// The ports in the head of its module, in order.
    pub ports: NameList<'a>,
    /// The name of its clock, where it has one.
    pub clock: Option<Text>,
    /// Its module, opened.
    pub top: Opening<'a>,
}

/// Whether a name is the clock's.
pub(crate) fn is_clock(clock: &Option<Text>, name: &str) -> bool
    ensures { result ≡ is_clock clock.now name.now }
{
    match clock {
        Some(clock) => clock.as_str() == name,
        None => false,
    }
}

/// What a port of this direction is.
fn direction_role(direction: Direction) -> Role
    ensures { result ≡ direction_role direction }
{
    match direction {
        Direction::Input => Role::Input,
        Direction::Output => Role::Output,
    }
}

/// What a port is that is not the clock.
fn port_role(port: Option<Port>) -> Role
    ensures { result ≡ port_role port }
{
    match port {
        Some(port) => direction_role(port.direction),
        None => Role::Input,
    }
}

/// Whether the signal of a port is signed.
fn sign_at(signals: &[Signal], port: Option<Port>) -> bool
    ensures { result ≡ sign_at signals.now port }
{
    let Some(port) = port else {
        return false;
    };
    match signals.get(port.number as usize) {
        Some(signal) => signal.is_signed,
        None => false,
    }
}

impl<'a> Design<'a> {
    /// What a port is.
    pub fn role(&self, name: &str) -> Role
        ensures { result ≡ role_of self.now name.now }
    {
        if is_clock(&self.clock, name) {
            Role::Clock
        } else {
            port_role(self.top.port(name))
        }
    }

    /// Whether a port is signed.
    pub fn is_signed(&self, name: &str) -> bool
        ensures { result ≡ port_sign self.now name.now }
    {
        sign_at(self.top.signals(), self.top.port(name))
    }
}

/// The name of the hidden signal of a port, which no source can name.
pub fn hidden_name(alloc: Global, instance: &str, port: &str) -> Result<Text, AllocError>
    ensures { IfOk result (λ text. text ≡ hidden_name instance.now port.now) }
{
    let text = format!(in alloc; "{instance} {port}")?;
    Ok(Text::from_string(text))
}
