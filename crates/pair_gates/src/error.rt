//! Why a pair of netlists has no clauses.
use cell_gates::GateError;
use mcy_base::Text;
use std::alloc::AllocError;

/// Why a pair of netlists has no clauses: the first of these that holds.
#[derive(Drop)]
pub enum EncodeError {
    /// The name of the first input or output that isn't at the same place with the same width in the other netlist: of the
    /// original's inputs, its outputs, and then the mutant's.
    PortsDiffer(Text),
    /// The same of registers.
    RegistersDiffer(Text),
    /// More than 2,048 bits of inputs and registers.
    TooManyFree(u32),
    /// More than 200,000 gates in both netlists together.
    TooManyGates,
    Memory,
}

impl From<AllocError> for EncodeError {
    ghost use Rattle.std.specs.Prelude.{◌≡◌};
    ghost use Rattle.pair_gates.specs.declared.error.EncodeError.TheVariants.{Memory};

    ghost from_gives = { λ _ e. e ≡ Memory };

    fn from(_: AllocError) -> EncodeError {
        EncodeError::Memory
    }
}

impl From<GateError> for EncodeError {
    ghost use Rattle.std.specs.Prelude.{◌≡◌};
    ghost use Rattle.pair_gates.specs.Refusals.{of_gates};

    ghost from_gives = { λ g e. e ≡ of_gates g };

    fn from(error: GateError) -> EncodeError {
        match error {
            GateError::TooMany => EncodeError::TooManyGates,
            GateError::Memory => EncodeError::Memory,
        }
    }
}
