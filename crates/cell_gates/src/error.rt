//! Why a cell is not added.
use std::alloc::AllocError;

/// Why a cell is not added as gates.
#[derive(Clone, Copy, Debug, PartialEq, Eq)]
pub enum GateError {
    /// The list would have more than 200,000 gates with those of the cell.
    TooMany,
    Memory,
}

impl From<AllocError> for GateError {
    ghost use Rattle.std.specs.Prelude.{◌≡◌};
    ghost use Rattle.cell_gates.specs.declared.error.GateError.TheVariants.{Memory};

    ghost from_gives = { λ _ e. e ≡ Memory };

    fn from(_: AllocError) -> GateError {
        GateError::Memory
    }
}
