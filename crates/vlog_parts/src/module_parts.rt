//! Parts of the heads of modules.
ghost use Rattle.std.specs.Prelude.{◌≡◌, true};
ghost use Rattle.vlog_parts.specs.Sorts.{is_parameter_port, is_output_ports};
ghost use Rattle.vlog_parts.specs.Numbered.{first, rest};
ghost use Rattle.vlog_parts.specs.Values.{modules_of, parameter_ports_of, parameter_port_of, more_parameters_of, port_list_of, declarations_of, more_ports_of, output_ports_of, identifiers_of};

use crate::stack::Stack;
use crate::value::Value;
use mcy_base::Span;
use std::alloc::Global;
use vlog_syntax::{
    DataType, DeclaredName, Identifier, Listed, Module, ParameterAssignment, ParameterDeclaration,
    ParameterType, PortDeclaration, Ports,
};

/// A parameter in the head of a module.
#[derive(Drop)]
pub enum ParameterPort {
    /// `parameter type name = value`, with the place of its `parameter`.
    First(Span, ParameterType, ParameterAssignment),
    /// `name = value`, of the type of the one before.
    Next(ParameterAssignment),
}

/// The parameters behind a first one: those of the same type, and the declarations behind them.
#[derive(Drop)]
pub struct MoreParameters {
    pub same: Stack<ParameterAssignment>,
    pub others: Stack<ParameterDeclaration>,
}

/// The ports behind a first one: those of the same type, and the declarations behind them.
#[derive(Drop)]
pub struct MorePorts {
    pub same: Stack<DeclaredName>,
    pub others: Stack<PortDeclaration>,
}

/// Outputs of one type, and the declarations behind them.
#[derive(Drop)]
pub struct OutputPorts {
    pub data_type: DataType,
    pub names: Stack<DeclaredName>,
    pub others: Stack<PortDeclaration>,
}

impl Stack<Value<'_>> {
    /// The next part, modules.
    #[tactic(auto, using(crate::proofs::Sorts::not_modules))]
    pub fn modules(&mut self, alloc: Global) -> Stack<Module>
        ensures value { result ≡ modules_of (first self.old) }
        ensures rest { self.new ≡ rest self.old }
    {
        match self.next() {
            Value::Modules(modules) => modules,
            other => {
                drop(other);
                Stack::new(alloc)
            }
        }
    }

    /// The next part, declarations of parameters.
    #[tactic(auto, using(crate::proofs::Sorts::not_parameter_ports))]
    pub fn parameter_ports(&mut self, alloc: Global) -> Stack<ParameterDeclaration>
        ensures value { result ≡ parameter_ports_of (first self.old) }
        ensures rest { self.new ≡ rest self.old }
    {
        match self.next() {
            Value::ParameterDeclarations(parameter_ports) => parameter_ports,
            other => {
                drop(other);
                Stack::new(alloc)
            }
        }
    }

    /// The next part, a parameter in the head of a module.
    #[tactic(auto, using(crate::proofs::Sorts::only_parameter_port))]
    pub fn parameter_port(&mut self) -> ParameterPort
        requires { is_parameter_port (first self.old) ≡ true }
        ensures value { result ≡ parameter_port_of (first self.old) }
        ensures rest { self.new ≡ rest self.old }
    {
        match self.next() {
            Value::ParameterPort(parameter_port) => parameter_port.into_inner(),
            _ => unreachable!(),
        }
    }

    /// The next part, parameters behind a first one.
    #[tactic(auto, using(crate::proofs::Sorts::not_more_parameters))]
    pub fn more_parameters(&mut self, alloc: Global) -> MoreParameters
        ensures value { result ≡ more_parameters_of (first self.old) }
        ensures rest { self.new ≡ rest self.old }
    {
        match self.next() {
            Value::MoreParameters(more_parameters) => more_parameters,
            other => {
                drop(other);
                MoreParameters {
                    same: Stack::new(alloc),
                    others: Stack::new(alloc),
                }
            }
        }
    }

    /// The next part, the ports of a module.
    #[tactic(auto, using(crate::proofs::Sorts::not_port_list))]
    pub fn port_list(&mut self, alloc: Global) -> Ports
        ensures value { result ≡ port_list_of (first self.old) }
        ensures rest { self.new ≡ rest self.old }
    {
        match self.next() {
            Value::Ports(port_list) => port_list,
            other => {
                drop(other);
                Ports::Names(Listed::from_vec(Vec::new(alloc)))
            }
        }
    }

    /// The next part, declarations of ports.
    #[tactic(auto, using(crate::proofs::Sorts::not_declarations))]
    pub fn declarations(&mut self, alloc: Global) -> Stack<PortDeclaration>
        ensures value { result ≡ declarations_of (first self.old) }
        ensures rest { self.new ≡ rest self.old }
    {
        match self.next() {
            Value::PortDeclarations(declarations) => declarations,
            other => {
                drop(other);
                Stack::new(alloc)
            }
        }
    }

    /// The next part, ports behind a first one.
    #[tactic(auto, using(crate::proofs::Sorts::not_more_ports))]
    pub fn more_ports(&mut self, alloc: Global) -> MorePorts
        ensures value { result ≡ more_ports_of (first self.old) }
        ensures rest { self.new ≡ rest self.old }
    {
        match self.next() {
            Value::MorePorts(more_ports) => more_ports,
            other => {
                drop(other);
                MorePorts {
                    same: Stack::new(alloc),
                    others: Stack::new(alloc),
                }
            }
        }
    }

    /// The next part, outputs of one type.
    #[tactic(auto, using(crate::proofs::Sorts::only_output_ports))]
    pub fn output_ports(&mut self) -> OutputPorts
        requires { is_output_ports (first self.old) ≡ true }
        ensures value { result ≡ output_ports_of (first self.old) }
        ensures rest { self.new ≡ rest self.old }
    {
        match self.next() {
            Value::OutputPorts(output_ports) => output_ports.into_inner(),
            _ => unreachable!(),
        }
    }

    /// The next part, identifiers.
    #[tactic(auto, using(crate::proofs::Sorts::not_identifiers))]
    pub fn identifiers(&mut self, alloc: Global) -> Stack<Identifier>
        ensures value { result ≡ identifiers_of (first self.old) }
        ensures rest { self.new ≡ rest self.old }
    {
        match self.next() {
            Value::Identifiers(identifiers) => identifiers,
            other => {
                drop(other);
                Stack::new(alloc)
            }
        }
    }
}
