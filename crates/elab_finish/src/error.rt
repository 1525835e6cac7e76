//! Why a design in which no item is refused has no netlist.
ghost use Rattle.std.specs.Prelude.{◌≡◌};
ghost use Rattle.elab_finish.specs.declared.error.DesignError.TheVariants.{Memory};

use mcy_base::{Kind, Span};
use std::alloc::AllocError;

/// Why there is no netlist, the first of these.
#[derive(Clone, Copy, Debug, PartialEq, Eq)]
pub enum DesignError {
    /// Nets lead back to themselves without passing through a cell: the place of the first left side that writes one. Or,
    /// where none do and there is neither of the next two, the place of the least numbered cell that reads itself, directly or
    /// through others.
    Loop(Span),
    /// More than 1,048,576 net bits, or else more than 4,096 register bits.
    TooMany(Kind),
    /// Or else two registers have one name: the place where the first one is declared that has the name of one before it.
    Twice(Span),
    /// There is no memory for it.
    Memory,
}

impl From<AllocError> for DesignError {
    ghost from_gives = { λ _ e. e ≡ Memory };

    fn from(_error: AllocError) -> Self {
        DesignError::Memory
    }
}
