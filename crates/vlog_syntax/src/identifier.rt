//! Identifiers and numbers, the leaves of the trees.
ghost use Rattle.std.specs.Prelude.{◌≡◌, IfOk};

use mcy_base::{Span, Text, Word};
use std::alloc::{AllocError, Global};

/// An identifier (IEEE 1364-2005, 3.7). The name of an escaped one is without its `\`, that of a system task or
/// function has its `$`.
pub struct Identifier {
    pub name: Text,
    pub span: Span,
}

impl Drop for Identifier {
    fn drop(self) {
        let Identifier {
            name: _name,
            span: _span,
        } = self;
    }
}

impl Identifier {
    /// The name alone.
    pub fn into_name(self) -> Text
        ensures { result ≡ self.name }
    {
        let Identifier { name, span: _ } = self;
        name
    }

    /// The same identifier.
    pub fn copy(&self, alloc: Global) -> Result<Identifier, AllocError>
        ensures { IfOk result (λ i. i ≡ self.now) }
    {
        Ok(Identifier {
            name: Text::copy(alloc, self.name.as_str())?,
            span: self.span,
        })
    }
}

/// A number (IEEE 1364-2005, 3.5): its value, in which an x or z bit is 0, and which of its bits are x and which z.
#[derive(Clone, Copy)]
pub struct Number {
    pub value: Word,
    pub is_signed: bool,
    pub x_bits: u128,
    pub z_bits: u128,
    pub span: Span,
}
