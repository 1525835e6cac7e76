//! Modules (IEEE 1364-2005, 12.1).
use crate::item::{Item, ParameterDeclaration, Ports};
use crate::listed::Listed;
use mcy_base::{Span, Text};

/// A module, with the place of its name.
pub struct Module {
    pub name: Text,
    pub span: Span,
    pub parameters: Listed<ParameterDeclaration>,
    pub ports: Ports,
    /// In the order of the source.
    pub items: Listed<Item>,
}

impl Drop for Module {
    fn drop(self) {
        let Module {
            name: _name,
            span: _span,
            parameters: _parameters,
            ports: _ports,
            items: _items,
        } = self;
    }
}
