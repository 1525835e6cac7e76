//! A whole module: its parameters and ports, what its items declare, and the ports that they leave out (IEEE 1364-2005, 12.1
//! and 12.3).
ghost use Rattle.std.specs.Prelude.{◌≡◌, ◌++◌, [], IfOk};
ghost use Rattle.vlog_meaning.specs.Scopes.{names_of};
ghost use Rattle.flat_scopes.specs.Openings.{Opened};
ghost use Rattle.flat_scopes.specs.Opens.{port_at, all_parameters as with_all_parameters, header_names as with_header_names, all_ports as with_all_ports, header as with_header, undeclared, footer as with_footer, OpensModule};
ghost use Rattle.flat_scopes.specs.Views.{opened_of};

use crate::lent::Lent;
use crate::names::NameList;
use crate::opening::{Head, Opening, Step};
use crate::refusal::Refusal;
use crate::signal::{Port, What};
use std::alloc::AllocError;
use vlog_meaning::Scope;
use vlog_syntax::{Identifier, Module, ParameterDeclaration, PortDeclaration, Ports};

impl<'a> Opening<'a> {
    /// The port that a name of the scope's own is, by what it stands for.
    fn port_at(&self, what: Option<What>) -> Option<Port>
        ensures { result ≡ port_at (opened_of self.now) what }
    {
        let Some(What::Variable(number)) = what else {
            return None;
        };
        let signal = self.signals.get(number as usize)?;
        let direction = signal.direction?;
        Some(Port { number, direction })
    }

    /// The port of this name, if the scope has one.
    pub fn port(&self, name: &str) -> Option<Port>
        ensures { result ≡ port_at (opened_of self.now) ((opened_of self.now).own name.now) }
    {
        self.port_at(self.what(name))
    }

    /// Parameters in the head of a module, and what they are declared as.
    fn all_parameters(
        &mut self,
        head: &Head<'a>,
        outside: &Scope,
        declarations: &[ParameterDeclaration],
    ) -> Result<(), AllocError>
        ensures { IfOk result (λ done. opened_of self.new ≡ with_all_parameters head.now (names_of outside.now) (opened_of self.old) declarations.now) }
    {
        for declaration in declarations {
            self.parameters(head, outside, declaration)?;
        }
        Ok(())
    }

    /// Refuses the names in the head of a module that stand there before.
    fn header_names(&mut self, names: &'a [Identifier]) -> Result<(), AllocError>
        ensures { IfOk result (λ done. opened_of self.new ≡ with_header_names (opened_of self.old) [] names.now) }
    {
        let mut seen = NameList::new(self.alloc);
        for name in names {
            if seen.has(name.name.as_str()) {
                self.refuse(Refusal::Twice(name.span))?;
            }
            seen = seen.with(Lent::of(name))?;
        }
        Ok(())
    }

    /// Ports that are declared in the head of a module.
    fn all_ports(
        &mut self,
        head: &Head<'a>,
        declarations: &'a [PortDeclaration],
    ) -> Result<(), AllocError>
        ensures { IfOk result (λ done. opened_of self.new ≡ with_all_ports head.now (opened_of self.old) declarations.now) }
    {
        for declaration in declarations {
            let typed = self.typed(&declaration.data_type)?;
            self.port_names(
                head,
                declaration.names.as_slice(),
                typed,
                declaration.direction,
            )?;
        }
        Ok(())
    }

    /// The ports in the head of a module.
    fn header(&mut self, head: &Head<'a>, ports: &'a Ports) -> Result<(), AllocError>
        ensures { IfOk result (λ done. opened_of self.new ≡ with_header head.now (opened_of self.old) ports.now) }
    {
        match ports {
            Ports::Names(names) => self.header_names(names.as_slice()),
            Ports::Declarations(declarations) => self.all_ports(head, declarations.as_slice()),
        }
    }

    /// The refusals of the names in the head of a module that no item declares as a port.
    fn undeclared(&self, names: &[Identifier]) -> Result<Vec<Step<'a>>, AllocError>
        ensures { IfOk result (λ steps. steps.items ≡ undeclared (opened_of self.now) names.now) }
    {
        let mut steps = Vec::new(self.alloc);
        for name in names {
            if self.port(name.name.as_str()).is_none() {
                steps.push(Step::Refuses(Refusal::Unknown(name.span)))?;
            }
        }
        Ok(steps)
    }

    /// Refuses the ports that no item declares, before all that stands there.
    fn footer(&mut self, ports: &Ports) -> Result<(), AllocError>
        ensures { IfOk result (λ done. opened_of self.new ≡ with_footer (opened_of self.old) ports.now) }
    {
        if let Ports::Names(names) = ports {
            let mut steps = self.undeclared(names.as_slice())?;
            steps.append(&mut self.steps)?;
            self.steps = steps;
        }
        Ok(())
    }

    /// Opens a module. The values that `head` gives its parameters are read in `outside`.
    pub fn open_module(
        &mut self,
        head: &Head<'a>,
        outside: &Scope,
        declaration: &'a Module,
    ) -> Result<(), AllocError>
        ensures { IfOk result (λ done. OpensModule head.now (names_of outside.now) declaration.now (opened_of self.old) (opened_of self.new)) }
    {
        self.all_parameters(head, outside, declaration.parameters.as_slice())?;
        self.header(head, &declaration.ports)?;
        self.open_items(head, outside, declaration.items.as_slice())?;
        self.footer(&declaration.ports)
    }
}
