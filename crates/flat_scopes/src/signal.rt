//! What the names of a scope stand for, and the signals of the flattened design.
use crate::range::VectorBits;
use mcy_base::{Span, Text};
use vlog_syntax::Direction;

/// A net or variable of the flattened design.
#[derive(Drop)]
pub struct Signal {
    /// Its name after flattening.
    pub name: Text,
    /// The place of its declared name.
    pub span: Span,
    pub bits: VectorBits,
    pub is_signed: bool,
    /// Where it is a port of its module.
    pub direction: Option<Direction>,
    /// Whether an item other than a port declaration declared it, or one with `reg` or `integer`.
    pub has_type: bool,
}

/// What a name of a scope stands for.
#[derive(Clone, Copy, Debug, PartialEq, Eq)]
pub enum What {
    /// A signal, by its number.
    Variable(u32),
    Constant,
    Genvar,
    /// An instance or a generate block.
    Inside,
}

/// A port of a module: the number of its signal, and its direction.
#[derive(Clone, Copy)]
pub struct Port {
    pub number: u32,
    pub direction: Direction,
}
